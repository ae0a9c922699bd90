// Arcs of object identifiers, read from contents and written into them.
ghost use Rattle.std.specs.Prelude.{◌≡◌, ◌<◌, ◌≤◌, ◌+◌, ◌*◌, ◌-◌, ◌^◌, ◌++◌, ◌∷◌, [], ℕ, List, length, IfOk, IfErr, OnOk, OnErr, Ok, Err};
ghost use Rattle.std.specs.Bool.{OnTrue, OnFalse};
ghost use Rattle.der_core.specs.Oid.{group_at, first_arcs, one_arc, arcs_of, later_arcs, group_bytes, groups_bytes, arcs_bytes, are_arcs, oid_of};

use arrayvec::ArrayVec;
use der_grammar::DerError;

/// The arcs of an identifier.
pub type Arcs = ArrayVec<u32, 40>;

/// The contents of an identifier.
pub type Contents = ArrayVec<u8, 39>;

fn low_bits(octet: u8) -> u64
    requires { 127 < octet }
    ensures value { result ≡ octet - 128 }
    ensures bound { result < 128 }
{
    (octet - 128) as u64
}

/// The number of the group at the front, of at most five octets, and what follows.
fn group(bytes: &[u8]) -> Result<(u64, &[u8]), DerError>
    ensures ok { IfOk result (λ x. group_at bytes.now ≡ Ok (x.0, x.1.now)) }
    ensures err { IfErr result (λ e. group_at bytes.now ≡ Err e) }
    ensures shorter { IfOk result (λ x. length x.1.now < length bytes.now) }
{
    let mut number = 0;
    let mut rest = bytes;
    'octets: for count in 0..5u8 {
        let Some((octet, after)) = rest.split_first() else {
            return Err(DerError::Value);
        };
        if *octet < 128 {
            return Ok((128 * number + *octet as u64, after));
        }
        if count == 0 && *octet == 128 {
            return Err(DerError::Value);
        }
        number = 128 * number + low_bits(*octet);
        rest = after;
    }
    Err(DerError::Value)
}

/// The first two arcs, from the number of the first group (X.690, 8.19.4).
fn first_two(number: u64) -> Result<(u32, u32), DerError>
    ensures ok { IfOk result (λ x. first_arcs number ≡ Ok (x.0 ∷ x.1 ∷ [])) }
    ensures err { IfErr result (λ e. first_arcs number ≡ Err e) }
{
    if number < 40 {
        Ok((0, number as u32))
    } else if number < 80 {
        Ok((1, (number - 40) as u32))
    } else if number < 4294967376 {
        Ok((2, (number - 80) as u32))
    } else {
        Err(DerError::Value)
    }
}

fn one(number: u64) -> Result<u32, DerError>
    ensures { result ≡ one_arc number }
{
    if number < 4294967296 {
        Ok(number as u32)
    } else {
        Err(DerError::Value)
    }
}

/// Appends the arcs of groups, up to the end.
fn append_later(bytes: &[u8], arcs: &mut Arcs) -> Result<(), DerError>
    requires { length bytes.now + length arcs.old.items ≤ 40 }
    ensures ok { OnOk result ((more : List ℕ) × (later_arcs bytes.now ≡ Ok more) × (arcs.new.items ≡ arcs.old.items ++ more)) }
    ensures err { IfErr result (λ e. later_arcs bytes.now ≡ Err e) }
{
    let mut rest = bytes;
    'groups: while !rest.is_empty() {
        let (number, after) = group(rest)?;
        arcs.push(one(number)?);
        rest = after;
    }
    Ok(())
}

/// The arcs that contents encode.
#[tactic(auto, unfolding(crate::specs::Oid::arcs_of))]
pub fn arcs_in(contents: &[u8]) -> Result<Arcs, DerError>
    requires { length contents.now < 40 }
    ensures ok { IfOk result (λ a. arcs_of contents.now ≡ Ok a.items) }
    ensures err { IfErr result (λ e. arcs_of contents.now ≡ Err e) }
{
    let (number, rest) = group(contents)?;
    let (first, second) = first_two(number)?;
    let mut arcs = Arcs::new();
    arcs.push(first);
    arcs.push(second);
    append_later(rest, &mut arcs)?;
    Ok(arcs)
}

/// Appends a group; false where there is no room for it.
#[tactic(auto, unfolding(crate::specs::Oid::group_bytes))]
fn append_group(number: u64, out: &mut Contents) -> bool
    requires { number < 4294967376 }
    ensures ok { OnTrue result (out.new.items ≡ out.old.items ++ group_bytes number) }
    ensures fits { OnTrue result (length out.new.items < 40) }
    ensures full { OnFalse result (39 < length out.old.items + length (group_bytes number)) }
{
    if number < 128 {
        append_octets(&[number as u8], out)
    } else if number < 16384 {
        append_octets(&[128 + (number / 128) as u8, (number % 128) as u8], out)
    } else if number < 2097152 {
        append_octets(
            &[
                128 + (number / 16384) as u8,
                128 + (number / 128 % 128) as u8,
                (number % 128) as u8,
            ],
            out,
        )
    } else if number < 268435456 {
        append_octets(
            &[
                128 + (number / 2097152) as u8,
                128 + (number / 16384 % 128) as u8,
                128 + (number / 128 % 128) as u8,
                (number % 128) as u8,
            ],
            out,
        )
    } else {
        append_octets(
            &[
                128 + (number / 268435456) as u8,
                128 + (number / 2097152 % 128) as u8,
                128 + (number / 16384 % 128) as u8,
                128 + (number / 128 % 128) as u8,
                (number % 128) as u8,
            ],
            out,
        )
    }
}

/// Appends octets; false where there is no room for them.
fn append_octets(octets: &[u8], out: &mut Contents) -> bool
    ensures ok { OnTrue result (out.new.items ≡ out.old.items ++ octets.now) }
    ensures fits { OnTrue result (length out.new.items < 40) }
    ensures full { OnFalse result (39 < length out.old.items + length octets.now) }
{
    if out.remaining_capacity() < octets.len() {
        return false;
    }
    'octets: for octet in octets {
        out.push(*octet);
    }
    true
}

/// Appends the groups of arcs; false where there is no room for them.
fn append_groups(arcs: &[u32], out: &mut Contents) -> bool
    requires { length out.old.items < 40 }
    ensures ok { OnTrue result (out.new.items ≡ out.old.items ++ groups_bytes arcs.now) }
    ensures fits { OnTrue result (length out.new.items < 40) }
    ensures full { OnFalse result (39 < length out.old.items + length (groups_bytes arcs.now)) }
{
    'arcs: for arc in arcs {
        if !append_group(*arc as u64, out) {
            return false;
        }
    }
    true
}

/// The contents of the identifier with these arcs; Oid where there is none.
#[tactic(auto, unfolding(crate::specs::Oid::oid_of))]
pub fn contents_of(arcs: &[u32]) -> Result<Contents, DerError>
    ensures ok { IfOk result (λ c. oid_of arcs.now ≡ Ok c.items) }
    ensures err { IfErr result (λ e. oid_of arcs.now ≡ Err e) }
{
    match arcs {
        [first, second, more @ ..] => {
            if *first > 2 || (*first < 2 && *second >= 40) {
                return Err(DerError::Oid);
            }
            let mut out = Contents::new();
            if !append_group(40 * *first as u64 + *second as u64, &mut out) {
                return Err(DerError::Oid);
            }
            if !append_groups(more, &mut out) {
                return Err(DerError::Oid);
            }
            Ok(out)
        }
        _ => Err(DerError::Oid),
    }
}
