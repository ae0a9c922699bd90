// Laws of the definitions. A call does nothing.
ghost use Rattle.sigstore_pem.specs.Laws.{WrittenIsRead, HeldIsArmored, ReadIsStrict};

/// The law of writing: of the text of a certificate the certificate is read.
pub fn written_is_read()
    ensures { WrittenIsRead }
{}

/// The law of texts that hold something: each of them is armoured.
pub fn held_is_armored()
    ensures { HeldIsArmored }
{}

/// The law of reading: what is read of a text is its first block, in the strict form.
pub fn read_is_strict()
    ensures { ReadIsStrict }
{}
