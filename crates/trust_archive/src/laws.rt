// Laws of archives. A call does nothing.
ghost use Rattle.trust_archive.specs.Laws.{OneChain, OneSpelling, WrittenIsRead};

/// The laws of archives: bytes are an archive of one chain, whatever it is judged by; what is read has one
/// spelling; and a trusted chain that is written is read again.
pub fn archive_laws()
    ensures chain { OneChain }
    ensures spelling { OneSpelling }
    ensures again { WrittenIsRead }
{}
