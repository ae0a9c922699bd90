// Whether a certificate may issue others.
ghost use Rattle.std.specs.Prelude.{◌≡◌, IfOk, option_copied};
ghost use Rattle.path_core.specs.CaConstraint.{authority_of, authority_in, is_room, stands_above, is_no_ca};

use crate::basic_constraints::BasicConstraints;
use der_core::{Der, DerError, Uint};
use foundation::NoMemory;
use std::alloc::Global;

/// What basic constraints (RFC 5280, 4.2.1.9) say of a certificate.
#[derive(Drop)]
pub(crate) enum CaConstraint {
    /// It may not issue certificates: they say so, or are left out.
    NotCa,
    /// It may, with so many intermediates below it, or any number.
    Ca(Option<Uint>),
    /// They aren't read.
    Unreadable,
}

fn said(constraints: BasicConstraints) -> CaConstraint
    ensures { result ≡ authority_of constraints }
{
    let BasicConstraints { ca, path_length } = constraints;
    if ca {
        CaConstraint::Ca(path_length)
    } else {
        CaConstraint::NotCa
    }
}

/// What the value of the extension says, where it is there.
pub(crate) fn read_authority(alloc: Global, value: Option<&[u8]>) -> Result<CaConstraint, NoMemory>
    ensures { IfOk result (λ authority. authority ≡ authority_in (option_copied value.entry)) }
{
    let Some(value) = value else {
        return Ok(CaConstraint::NotCa);
    };
    match BasicConstraints::from_der(alloc, value) {
        Ok(constraints) => Ok(said(constraints)),
        Err(DerError::NoMemory) => Err(NoMemory),
        Err(_) => Ok(CaConstraint::Unreadable),
    }
}

// Whether so many are no more than a path length; one of two octets or more is above all counts here.
#[tactic(auto, using(crate::proofs::Room::room_none, crate::proofs::Room::room_one, crate::proofs::Room::room_more))]
fn is_room(below: u8, path_length: &Uint) -> bool
    ensures { result ≡ is_room below path_length.now }
{
    match path_length.as_bytes() {
        [] => below == 0,
        [least] => below <= *least,
        [_, _, ..] => true,
    }
}

impl CaConstraint {
    /// Whether it may issue certificates above so many intermediates. Without this check whoever holds
    /// a leaf could issue others, and an issuer could hand on more than it was given.
    pub(crate) fn stands_above(&self, below: u8) -> bool
        ensures { result ≡ stands_above below self.now }
    {
        match self {
            CaConstraint::NotCa => false,
            CaConstraint::Ca(None) => true,
            CaConstraint::Ca(Some(path_length)) => is_room(below, path_length),
            CaConstraint::Unreadable => false,
        }
    }

    /// Whether it may not issue certificates.
    pub(crate) fn is_no_ca(&self) -> bool
        ensures { result ≡ is_no_ca self.now }
    {
        match self {
            CaConstraint::NotCa => true,
            CaConstraint::Ca(_) => false,
            CaConstraint::Unreadable => false,
        }
    }
}
