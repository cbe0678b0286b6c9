//! The faults of parameters, in their order.
use x3_params::{ParamFault, Params, Profile};

fn refuses(params: &mut Params) -> bool {
    params.set(11, 3) == Err(ParamFault::ReadOnly)
        && params.set(2, 2) == Err(ParamFault::BadValue)
        && params.set(19, 0) == Err(ParamFault::NoSuchParameter)
}

fn takes(params: &mut Params) -> bool {
    params.set(2, 0).is_ok() && params.get(2) == Some(0) && params.get(19).is_none()
}

#[test]
fn refusals_come_in_order(rt: HostRuntime) {
    let mut params = Params::profile(Profile::Simple, 14);
    assert!(rt; refuses(&mut params) && takes(&mut params));
}
