// Runs of a workload, of words outside its grammar, and runs over a store that an earlier run left.
use crate::tables::hold;

// A row: the part, the text in its place, and the status with what is written. The other runs stand in `world_tests`.
const RUNS: &str = r#"# A workload, and words outside its grammar.
words | generate --number=0 --count=10 | Accepted "generated 10\naccepted 4\nrefused verify 3 SignatureInvalid 4\nrefused verify 4 ArtifactMismatch 2\n"
words | generate --count=7 --number=4294967295 | Accepted "generated 7\naccepted 4\nrefused verify 3 SignatureInvalid 2\nrefused verify 4 ArtifactMismatch 1\n"
words | generate --number=0 --count=1 | Accepted "generated 1\naccepted 1\n"
words | generate | Usage "usage\n"
words | generate --number=0 | Usage "usage\n"
words | generate --number=0 --count=0 | Usage "usage\n"
words | generate --number=0 --count=4097 | Usage "usage\n"
words | generate --number=4294967296 --count=1 | Usage "usage\n"
words | generate --number=00 --count=1 | Usage "usage\n"
words | generate --number=+1 --count=1 | Usage "usage\n"
words | generate --number= --count=1 | Usage "usage\n"
words | generate --number=0 --count=1 --count=1 | Usage "usage\n"
words | generate --number=0 --count=1 --now=2025-01-01T00:00:00Z | Usage "usage\n"
words | Generate --number=0 --count=1 | Usage "usage\n"
# A second root is adopted from the repository, and in a later run from the store alone.
kept root | 2 | Accepted "accepted\nroot 2\ntimestamp 1\nsnapshot 1\nrole targets 1\ntarget 2\nartifact sha256 2cf24dba5fb0a30e26e83b2ac5b9e29e1b161e5c1fa7425e73043362938b9824\nidentity none\nissuer none\ncertificate no\nsct no\ntlog no\npolicy no\nintegrated none\ntimes 0\n"
# A bundle one byte longer than the limit, and one of the limit, which isn't JSON.
bundle of blanks | 16777217 | Input "input bundle\n"
bundle of blanks | 16777216 | Refused "refused verify 22 InvalidBundle\n""#;

#[test]
fn runs_end_as_they_are_to_end(rt: HostRuntime) {
    hold(&rt, "run", RUNS);
}

// A row: the part, the text in its place, a name, and the length and the SHA-256 value of what the store has
// under it after the run, by a script. The third byte of the artifact can't be read; the store's newer
// timestamp stays.
const KEPT: &str =
    r#"byte fails | 3 | root_history/1.root.json | 552 a1b0b38161b6aa30a2ef61beb007a482f7347219c135c61c0346683e4d315331
byte fails | 3 | root.json | 552 a1b0b38161b6aa30a2ef61beb007a482f7347219c135c61c0346683e4d315331
byte fails | 3 | timestamp.json | 179 c4a172a0fced4b10c5e58836f3ac47560617673c694af6693ea4e84528416e04
byte fails | 3 | snapshot.json | 177 c66812bd310d9ffec79d3f410f617ae12852355d19c533d4cc8d7ca000552352
byte fails | 3 | targets.json | 270 2a8b7ee8f7369b05d495ac5f27f1ff03967db37f0a856db2d8bd89c2be6ec16c
byte fails | 3 | targets/trusted_root.json | 2 44136fa355b3678a1146ad16f7e8649e94fb4fc21fe77e8310c060f61caaff8a
kept timestamp | {"_type":"timestamp","expires":"2030-01-01T00:00:00Z","meta":{"snapshot.json":{"version":1}},"spec_version":"1.0.0","version":2} | timestamp.json | 179 dd0fefb62366e41bde4d34f3ce92ed38a32338136fd72364dfcfce9db3058ba9
consistent names |  | 1.snapshot.json | 177 c66812bd310d9ffec79d3f410f617ae12852355d19c533d4cc8d7ca000552352
consistent names |  | snapshot.json | 177 c66812bd310d9ffec79d3f410f617ae12852355d19c533d4cc8d7ca000552352
consistent names |  | 1.targets.json | none
consistent names |  | targets.json | 270 2a8b7ee8f7369b05d495ac5f27f1ff03967db37f0a856db2d8bd89c2be6ec16c
consistent names |  | targets/trusted_root.json | 2 44136fa355b3678a1146ad16f7e8649e94fb4fc21fe77e8310c060f61caaff8a
delegated | u d | d.json | 270 aac04b8954ac388d1f460d5127e23c8ade14a589661b1bc7e41aa2dadf0734f1
delegated | u d | e.json | none
delegated | e! d | d.json | none
words |  | root.json | none"#;

#[test]
fn what_a_refused_run_leaves_in_the_store(rt: HostRuntime) {
    hold(&rt, "kept", KEPT);
}

const FAULTS: &str = "RootFault::Tuf | Tuf
RootFault::NoMemory | NoMemory";

#[test]
fn refusals_of_the_top_call_have_texts(rt: HostRuntime) {
    hold(&rt, "fault", FAULTS);
}
