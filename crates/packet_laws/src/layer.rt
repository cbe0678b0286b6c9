//! What the numbers on all channels of a packet layer name, whatever is called and whatever its partner does.
ghost use Rattle.packet_laws.specs.Layers.NumbersLaw.{MadeLaw, CallsLaw, GrowsLaw, NamedLaw, Always, IsNextNamed, ResetsInTransfer};
ghost use Rattle.packet_laws.specs.Layers.Counts.{AllAgree};
ghost use Rattle.packet_laws.specs.Layers.LayerRun.{RunLaw};

/// The law of one packet layer, over its definitions alone, by which each call of `Layer` is exact: whatever is called
/// and whatever its partner sends, the numbers of each channel in data transfer name the counts of an epoch, which
/// nobody stores. P(S) of a packet names its place among those sent since the last reset, and P(R) how many of those
/// taken were released (X.25 4.4.1).
pub fn layer_law()
    ensures made { MadeLaw }

    // Each call keeps it, of whichever epochs it holds: they grow, or a reset or the end of a call begins a new one.
    ensures calls { CallsLaw }
    ensures grows { GrowsLaw }
    ensures named { NamedLaw }

    // From the making of a layer on.
    ensures always { Always AllAgree }
    ensures always_named { Always IsNextNamed }
    ensures resets { Always ResetsInTransfer }

    // A run that meets what is asked for here.
    ensures run { RunLaw }
{}
