// The features that an operator asks for, and what those of a chain make of its flags.
ghost use Rattle.std.specs.Prelude.{◌≡◌};
ghost use Rattle.chains.specs.Features.{request_of, is_asked, switched, flags_behind};

use crate::{Cursor, Feature};

// A feature as it is asked for: its type times 65,536 plus its setting.
#[tactic(auto, unfolding(crate::specs::Features::request_of))]
fn request_of(feature: Feature) -> u32
    ensures { result ≡ request_of feature }
{
    crate::joined(feature.selector, feature.setting)
}

// Whether a feature's number is among the requests. The loop looks at every one, so that several are compared at once.
#[tactic(auto, using(crate::proofs::Switching::asked_more), unfolding(crate::specs::Features::is_asked))]
fn is_asked(requests: &[u32], wanted: u32) -> bool
    ensures { result ≡ is_asked requests.now wanted }
{
    let mut asked = false;
    for &request in requests {
        asked |= request == wanted;
    }
    asked
}

// The flags behind a feature.
#[tactic(auto, unfolding(crate::specs::Features::switched))]
fn switch(requests: &[u32], feature: Feature, flags: u32) -> u32
    ensures { result ≡ switched requests.now feature flags }
{
    if !is_asked(requests, request_of(feature)) {
        return flags;
    }
    flags & feature.disable | feature.enable
}

// The flags behind the features of a list. Without requests none is looked at.
#[tactic(auto, using(crate::proofs::Switching::falls, crate::proofs::Switching::flags_on, crate::proofs::Switching::flags_ended, crate::proofs::Switching::flags_none))]
pub fn flags_behind(table: &[u8], features: Cursor, flags: u32, requests: &[u32]) -> u32
    ensures { result ≡ flags_behind table.now features flags requests.now }
{
    if requests.is_empty() {
        return flags;
    }
    let mut list = features;
    let mut switched = flags;
    while let Some(feature) = crate::feature_from(table, list) {
        switched = switch(requests, feature, switched);
        list = feature.next;
    }
    switched
}
