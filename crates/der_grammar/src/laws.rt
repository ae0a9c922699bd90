// The laws of encodings, for every type.
ghost use Rattle.std.specs.Prelude.{◌≡◌, ℕ, true, List, ◌++◌, length, Ok};
ghost use Rattle.der_grammar.specs.Tlv.{IsBytes};
ghost use Rattle.der_grammar.specs.Grammar.{Encodes, read_all, write};
ghost use Rattle.der_grammar.specs.Sets.{IsSetOf, set_from};

use crate::der::Der;

/// No encoding is the front of another one, and an encoding has one value.
pub fn no_prefix<T: Der>()
    ensures { (a b : T) (x y v w : List ℕ) → Encodes T.grammar a x → Encodes T.grammar b y → x ++ v ≡ y ++ w → (a ≡ b) × (x ≡ y) }
{}

/// Reading what was written gives the value.
pub fn written_is_read<T: Der>()
    ensures { (a : T) (x : List ℕ) → write T.grammar a ≡ Ok x → read_all T.grammar x ≡ Ok a }
{}

/// What was read is written again in as many bytes, as an encoding of the same value with its sets
/// put in order.
pub fn read_is_written<T: Der>()
    ensures { (a : T) (x : List ℕ) → IsBytes x → read_all T.grammar x ≡ Ok a
        → (y : List ℕ) × (write T.grammar a ≡ Ok y) × Encodes T.grammar a y × (length y ≡ length x) }
{}

/// A type with no sets within writes the very bytes that were read.
pub fn read_is_written_same<T: Der>()
    ensures { T.grammar.plain ≡ true → (a : T) (x : List ℕ) → IsBytes x → read_all T.grammar x ≡ Ok a → write T.grammar a ≡ Ok x }
{}

/// A set has the members that were put in, each encoded before the next.
pub fn set_has_members<T: Der>()
    ensures { (members a : List T) → set_from T.grammar members ≡ Ok a → IsSetOf T.grammar members a }
{}
