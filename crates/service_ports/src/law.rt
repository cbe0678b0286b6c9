//! What the two ends of a connection make of each other, over definitions alone.
ghost use Rattle.service_ports.specs.ClientForm.{ClientReadsText, KeysAreRead, OptionsAreAnsweredOnce};

/// The law of telnet (RFC 854). Whatever is shown and told to a client, it reads the text that was shown. What a client
/// types is read as it was typed. And whatever a client sends, no option is answered twice.
pub fn telnet_law()
    ensures written { ClientReadsText }
    ensures typed { KeysAreRead }
    ensures answered { OptionsAreAnsweredOnce }
{}
