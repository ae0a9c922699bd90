// Tables of searches, one row a line: a leaf, intermediates, anchors, what for and when, and the answer: the
// intermediates' positions, `>`, the anchor's, and whose key issued the leaf. Worked out by hand by RFC 5280,
// section 6, and what this crate's definitions ask beside it.
use crate::words::{good, hold, place};
use path_core::{LeafFault, PathError, first_is_one, path_exactly};
use std::process::Abort;

// A root, two intermediates, and leaves of the second.
const CHAINS: &str = "\
code : two one : root : code now => 0 1 > 0 by two
code : one two : root : code now => 1 0 > 0 by two
code : zero two i_good one : root2 root : code now => 1 3 > 1 by two
code : two one one : root : code now => 0 1 > 0 by two
code : two two one : root : code now => 0 2 > 0 by two
code : two one : one root : code now => 0 > 0 by two
code : two one : two one root : code now => > 0 by two
code : two : root : code now => NoPath
code : one : root : code now => NoPath
code : two one : : code now => NoPath
code : : root : code now => NoPath
code : two one : root2 : code now => NoPath
code : code two one : root : code now => 1 2 > 0 by two
time : two one : root : time now => 0 1 > 0 by two
both : two one : root : time now => 0 1 > 0 by two
both : two one : root : code now => 0 1 > 0 by two";

// What a leaf has to be, and which property it is told of first.
const LEAVES: &str = "\
known : two one : root : code now => 0 1 > 0 by two
not_ca : two one : root : code now => 0 1 > 0 by two
time : two one : root : code now => Leaf(Purpose)
code : two one : root : time now => Leaf(Purpose)
server : two one : root : code now => Leaf(Purpose)
any : two one : root : code now => Leaf(Purpose)
plain : two one : root : code now => Leaf(Purpose)
bad_usage : two one : root : code now => Leaf(Purpose)
empty_usage : two one : root : code now => Leaf(Purpose)
ca_leaf : two one : root : code now => Leaf(IsCa)
bad_constraints : two one : root : code now => Leaf(IsCa)
bad_alone : two one : root : code now => Leaf(IsCa)
ca_plain : two one : root : code now => Leaf(IsCa)
root : : root : code now => Leaf(IsCa)
critical : two one : root : code now => Leaf(CriticalExtension)
critical_ca : two one : root : code now => Leaf(CriticalExtension)
critical_plain : two one : root : code now => Leaf(CriticalExtension)
v1 : two one : root : code now => Leaf(Version)
nothing : two one : root : code now => Leaf(Unreadable)
server : : : code now => Leaf(Purpose)";

// Path lengths count the intermediates below: `zero` and `zero_one` have one name and key.
const LENGTHS: &str = "\
code_zero : zero : root : code now => 0 > 0 by zero
code_under : under zero : root : code now => NoPath
code_under : under zero_one : root : code now => 0 1 > 0 by under
code_under : under zero zero_one : root : code now => 0 2 > 0 by under
code_under : under : zero : code now => 0 > 0 by under
code_s6 : s6 s5 s4 s3 s2 s1 : root : code now => 0 1 2 3 4 5 > 0 by s6
code_s6 : s1 s2 s3 s4 s5 s6 : root : code now => 5 4 3 2 1 0 > 0 by s6
code_s7 : s7 s6 s5 s4 s3 s2 s1 : root : code now => NoPath
code_s7 : s7 s6 s5 s4 s3 s2 s1 : s1 : code now => 0 1 2 3 4 5 > 0 by s7
code_s7 : s7 s6 s5 s4 s3 s2 : s1 root : code now => 0 1 2 3 4 5 > 0 by s7";

// Intermediates of one name and key that differ in what they say.
const INTERMEDIATES: &str = "\
code_other : i_good : root : code now => 0 > 0 by other
code_other : i_false : root : code now => NoPath
code_other : i_none : root : code now => NoPath
code_other : i_critical : root : code now => NoPath
code_other : i_names : root : code now => NoPath
code_other : i_names_quiet : root : code now => NoPath
code_other : i_time : root : code now => NoPath
code_other : i_code : root : code now => 0 > 0 by other
code_other : i_bad_usage : root : code now => NoPath
code_other : i_bad : root : code now => NoPath
code_other : i_long : root : code now => 0 > 0 by other
code_other : nothing i_good : root : code now => 1 > 0 by other
code_other : i_key : root : code now => NoPath
code_other : i_key i_good : root : code now => 1 > 0 by other
code_other : i_false i_none i_good i_good : root : code now => 2 > 0 by other
code_other : i_self i_good : root : code now => 1 > 0 by other
code_other : i_self : root : code now => NoPath
code_other : i_self : i_good : code now => > 0 by other
code_other : i_old : root : code now => NoPath
code_other : i_old : root : code 2023-06-15T12:00:00Z => 0 > 0 by other
code_other : i_old : root : code 2023-06-15T12:00:00.000000001Z => NoPath
code_other : i_old : root : code 2020-01-01T00:00:00Z => 0 > 0 by other
code_other : i_old : root : code 2019-12-31T23:59:59.999999999Z => NoPath
code_other : i_young i_old : root : code 2023-06-15T12:00:00Z => 1 > 0 by other
code_other : i_young i_old : root : code now => 0 > 0 by other";

// Anchors: their windows count, and not what their certificates say; certificates that cross.
const ANCHORS: &str = "\
code_other : : i_false : code now => > 0 by other
code_other : : i_old : code now => > 0 by other
code_other : : i_time : code now => > 0 by other
code_other : : i_key i_good : code now => > 1 by other
code_other : i_good : root@2024-06-01T00:00:00Z.. : code now => 0 > 0 by other
code_other : i_good : root@2020-01-01T00:00:00Z..2024-06-01T00:00:00Z : code now => 0 > 0 by other
code_other : i_good : root@2024-06-01T00:00:00.000000001Z.. : code now => NoPath
code_other : i_good : root@2020-01-01T00:00:00Z..2024-05-31T23:59:59Z : code now => NoPath
code_other : i_good : root@2020-01-01T00:00:00Z..2021-01-01T00:00:00Z root : code now => 0 > 1 by other
code_other : i_good : root2 root root : code now => 0 > 1 by other
code_other : : i_good : code 1970-01-01T00:00:00Z => > 0 by other
code_other : : i_good : code 1969-12-31T23:59:59.999999999Z => NoPath
code : two one : root_named root : code now => 0 1 > 1 by two
code : two one : root_named : code now => NoPath
code : two one root_by_root2 : root2 : code now => 0 1 2 > 0 by two
code : two one root_by_root2 : root2 root : code now => 0 1 > 1 by two
code_right : right_by_left left_by_right left_root : root : code now => 0 2 > 0 by right
code_left : right_by_left left_by_right left_root : root : code now => 2 > 0 by left
code_right : right_by_left left_by_right : root : code now => NoPath";

// Links by keys and signatures of each sort. The last three are signed as no scheme of the table does, or
// under another salt than the table has.
const SCHEMES: &str = "\
code_384 : : r384 : code now => > 0 by p384
code_384_256 : : r384 : code now => > 0 by p384
code_256_384 : two one : root : code now => 0 1 > 0 by two
code_ed : : red : code now => > 0 by ed
code_rsa256 : : rrsa : code now => > 0 by rsa
code_rsa384 : : rrsa : code now => > 0 by rsa
code_rsa512 : : rrsa : code now => > 0 by rsa
code_pss256 : : rrsa : code now => > 0 by rsa
code_pss384 : : rrsa : code now => > 0 by rsa
code_pss512 : : rrsa : code now => > 0 by rsa
code_pss_salt : : rrsa : code now => NoPath
code_256_512 : two one : root : code now => NoPath";

// How many pairs are judged, and how often the provider is asked, counted by hand: level by level, each pair once, and
// it is asked of those whose names fit. Of two that sign each other and one anchor at most 9; of twenty of one name and
// key that sign each other at most 441, whether they are copies or differ in their numbers: the leaf with each and the
// anchor, the first of them so too, and the others with the anchor alone.
const COUNTS: &str = "\
code : two one : root : code now => 6 3
code_other : : i_good : code now => 1 1
server : two one : root : code now => 0 0
code_right : right_by_left left_by_right : root : code now => 9 3
code_other : i_self*20 : root : code now => 61 40
code_ring : ring1 ring2 ring3 ring4 ring5 ring6 ring7 ring8 ring9 ring10 ring11 ring12 ring13 ring14 ring15 ring16 ring17 ring18 ring19 ring20 : root : code now => 61 40";

// Which certificates may be anchors.
const MAKINGS: &str = "\
root => made
i_false => made
i_old@2020-01-01T00:00:00Z.. => made
i_names => NameConstraints
i_names_quiet => NameConstraints
root_names => NameConstraints
nothing => Certificate";

// The number and the text of each refusal, and of each fault of a leaf.
const REFUSALS: &str = "\
Unreadable => 1 Leaf Unreadable
Version => 1 Leaf Version
CriticalExtension => 1 Leaf CriticalExtension
IsCa => 1 Leaf IsCa
Purpose => 1 Leaf Purpose
NoPath => 2 NoPath
NameConstraints => 3 NameConstraints
Certificate => 4 Certificate
NoMemory => 5 NoMemory";

const NAMES: &str = "\
Unreadable Version CriticalExtension IsCa Purpose NoPath NameConstraints Certificate";

fn error(name: &str) -> PathError {
    match place(name, NAMES) {
        0 => PathError::Leaf(LeafFault::Unreadable),
        1 => PathError::Leaf(LeafFault::Version),
        2 => PathError::Leaf(LeafFault::CriticalExtension),
        3 => PathError::Leaf(LeafFault::IsCa),
        4 => PathError::Leaf(LeafFault::Purpose),
        5 => PathError::NoPath,
        6 => PathError::NameConstraints,
        7 => PathError::Certificate,
        _ => PathError::NoMemory,
    }
}

/// A refusal's number and text.
pub fn refusal<X: AllocGlobal + Abort>(rt: &X, name: &str) -> String {
    let refusal = error(name);
    let number = refusal.number();
    match refusal {
        PathError::Leaf(fault) => good(rt, format!(in rt.alloc(); "{number} {refusal} {fault}")),
        _ => good(rt, format!(in rt.alloc(); "{number} {refusal}")),
    }
}

#[test]
fn searches_find_their_paths(rt: HostRuntime) {
    hold(
        &rt,
        &[
            ("path", CHAINS),
            ("path", LEAVES),
            ("path", LENGTHS),
            ("path", INTERMEDIATES),
            ("path", ANCHORS),
            ("path", SCHEMES),
            ("count", COUNTS),
            ("making", MAKINGS),
            ("refusal", REFUSALS),
        ],
    );
    path_exactly();
}
