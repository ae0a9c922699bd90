// The entry of the fixture's bundle where its signer has a certificate. Its tree has one entry, whose body and root are
// those of `keyless_data`; the log has the id of 32 bytes 01, under the fixture's key.
use crate::keyless_data::{BODY, ROOT};
use crate::tables::good;
use std::process::Abort;

// What the log signed.
pub(crate) fn signed<X: AllocGlobal + Abort>(rt: &X) -> String {
    good(rt, format!(in rt.alloc(); "log\n1\n{ROOT}\n"))
}

// What the log signed as its promise.
pub(crate) fn payload<X: AllocGlobal + Abort>(rt: &X) -> String {
    let text = format!(in rt.alloc();
        r#"{{"body":"{BODY}","integratedTime":1700000100,"logID":"0101010101010101010101010101010101010101010101010101010101010101","logIndex":0}}"#
    );
    good(rt, text)
}

// The checkpoint with its line as JSON has it.
fn checkpoint<X: AllocGlobal + Abort>(rt: &X) -> String {
    good(
        rt,
        format!(in rt.alloc(); r"log\n1\n{ROOT}\n\n— log AQEBAQE=\n"),
    )
}

fn proof<X: AllocGlobal + Abort>(rt: &X) -> String {
    let checkpoint = checkpoint(rt);
    let text = format!(in rt.alloc();
        r#"{{"logIndex":"0","rootHash":"{ROOT}","treeSize":"1","hashes":[],"checkpoint":{{"envelope":"{checkpoint}"}}}}"#
    );
    drop(checkpoint);
    good(rt, text)
}

// The entries of the bundle.
pub(crate) fn entries<X: AllocGlobal + Abort>(rt: &X) -> String {
    let proof = proof(rt);
    let text = format!(in rt.alloc();
        r#""tlogEntries":[{{"logIndex":"0","logId":{{"keyId":"AQEBAQEBAQEBAQEBAQEBAQEBAQEBAQEBAQEBAQEBAQE="}},"kindVersion":{{"kind":"hashedrekord","version":"0.0.1"}},"integratedTime":"1700000100","inclusionPromise":{{"signedEntryTimestamp":"AQ=="}},"inclusionProof":{proof},"canonicalizedBody":"{BODY}"}}]"#
    );
    drop(proof);
    good(rt, text)
}
