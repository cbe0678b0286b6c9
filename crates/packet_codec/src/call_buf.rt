//! Call blocks that are kept.

ghost use Rattle.std.specs.Prelude.{◌≡◌};
ghost use Rattle.packet_codec.specs.Packet.{IsCallValue};
ghost use Rattle.packet_codec.specs.View.{call_view};

use crate::address::Address;
use crate::packet::{CallData, MAX_CALL_USER_DATA, MAX_FACILITIES};
use arrayvec::ArrayVec;
use std::marker::Model;

/// The call block of a Call, kept in place.
#[derive(Drop)]
pub struct CallBuf {
    called: Address,
    calling: Option<Address>,
    facilities: ArrayVec<u8, MAX_FACILITIES>,
    user_data: ArrayVec<u8, MAX_CALL_USER_DATA>,
}

impl Model for CallBuf {
    ghost use Rattle.packet_codec.specs.Packet.{CallValue};

    ghost Value = { CallValue };

    ghost use Rattle.packet_codec.specs.CallBuf.{kept_call, IsKeptCall};

    ghost view = { kept_call };

    ghost invariant = { IsKeptCall };
}

impl CallBuf {
    /// Keeps what a call block says.
    pub fn new(call: &CallData) -> CallBuf
        requires { IsCallValue (call_view call.now) }
        ensures { result ≡ call_view call.now }
    {
        let mut facilities = ArrayVec::new();
        let mut user_data = ArrayVec::new();
        let _ = facilities.try_extend_from_slice(call.facilities);
        let _ = user_data.try_extend_from_slice(call.user_data);
        CallBuf {
            called: call.called,
            calling: call.calling,
            facilities,
            user_data,
        }
    }

    /// What the call block says.
    pub fn data(&self) -> CallData<'_>
        ensures says { call_view result ≡ self.now }
        ensures fits { IsCallValue self.now }
    {
        CallData {
            called: self.called,
            calling: self.calling,
            facilities: self.facilities.as_slice(),
            user_data: self.user_data.as_slice(),
        }
    }
}
