// Consistency proofs between the trees over the first leaves of a log, whose leaves are the octets of their indices. The rows
// were printed by `bench/merkle_vectors`, which knows nothing of the program.
use crate::inclusions::{hash, path, shown};
use crate::tables::{good, halves, hold, number, numbered, place, string, there};
use crate::trees::leaves;
use log_tiles::{Compared, TileError, WhichTree, compare_trees, verify_consistency};
use sigstore_types_parts::Sha256Hash;
use std::process::Abort;

/// Sizes, roots and proofs; and what the leaves themselves show.
const GROWN: &str = "\
verify 3 3b6cccd7e3e023ff393006f030315ee7ad9eb111b022b41fba7e5b7a3973f688 7 3560191803028444b232018ac047fdb561c09c23a7a6876c85e08b5e4d48e9f3 fcf0a6c700dd13e274b6fba8deea8dd9b26e4eedde3495717cac8408c9c5177f,583c7dfb7b3055d99465544032a571e10a134b1b6f769422bbb71fd7fa167a5d,a20bf9a7cc2dc8a08f5f415a71b19f6ac427bab54d24eec868b5d3103449953a,89c929834ed1459b07f65b5e1a2143a8cf5d8efdf30f49ffffa328bb1d9133bb => accepted
verify 4 9bcd51240af4005168f033121ba85be5a6ed4f0e6a5fac262066729b8fbfdecb 7 3560191803028444b232018ac047fdb561c09c23a7a6876c85e08b5e4d48e9f3 89c929834ed1459b07f65b5e1a2143a8cf5d8efdf30f49ffffa328bb1d9133bb => accepted
verify 6 bb36e7d3d4cee5720cbd323d02fab15962e2ba1dadf5f8fc6eeef4fd6ad056a8 7 3560191803028444b232018ac047fdb561c09c23a7a6876c85e08b5e4d48e9f3 4b8c129ed14cce2c08cfc6766db7f8cdb133b5f698b8de3d5890ea7ff7f0a8d1,40d88127d4d31a3891f41598eeed41174e5bc89b1eb9bbd66a8cbfc09956a3fd,9bcd51240af4005168f033121ba85be5a6ed4f0e6a5fac262066729b8fbfdecb => accepted
verify 7 3560191803028444b232018ac047fdb561c09c23a7a6876c85e08b5e4d48e9f3 7 3560191803028444b232018ac047fdb561c09c23a7a6876c85e08b5e4d48e9f3 - => accepted
verify 1 96a296d224f285c67bee93c30f8a309157f0daa35dc5b87e410b78630a09cfc7 8 ef7f49b620f6c7ea9b963a214da34b5021c6ded8ed57734380a311ab726aa907 b413f47d13ee2fe6c845b2ee141af81de858df4ec549a58b7970bb96645bc8d2,52c56b473e5246933e7852989cd9feba3b38f078742b93afff1e65ed46797825,c1fe42b33ebb8e8a7e4a90abc481c7434e2be02cff2f6a18d7ffab4f1e25891b => accepted
verify 5 b855b42d6c30f5b087e05266783fbd6e394f7b926013ccaa67700a8b0c5a596f 8 ef7f49b620f6c7ea9b963a214da34b5021c6ded8ed57734380a311ab726aa907 4f35212d12f9ad2036492c95f1fe79baf4ec7bd9bef3dffa7579f2293ff546a4,9f1afa4dc124cba73134e82ff50f17c8f7164257c79fed9a13f5943a6acb8e3d,bbb0feb32f648c73fe170518bcec1f675af1b780dc23d6fbf30b745c1ca5fa11,9bcd51240af4005168f033121ba85be5a6ed4f0e6a5fac262066729b8fbfdecb => accepted
verify 0 3560191803028444b232018ac047fdb561c09c23a7a6876c85e08b5e4d48e9f3 7 3560191803028444b232018ac047fdb561c09c23a7a6876c85e08b5e4d48e9f3 - => 1 Sizes 0 7
verify 8 ef7f49b620f6c7ea9b963a214da34b5021c6ded8ed57734380a311ab726aa907 7 3560191803028444b232018ac047fdb561c09c23a7a6876c85e08b5e4d48e9f3 - => 1 Sizes 8 7
verify 4 9bcd51240af4005168f033121ba85be5a6ed4f0e6a5fac262066729b8fbfdecb 7 3560191803028444b232018ac047fdb561c09c23a7a6876c85e08b5e4d48e9f3 - => 8 PathLength
verify 7 3560191803028444b232018ac047fdb561c09c23a7a6876c85e08b5e4d48e9f3 7 3560191803028444b232018ac047fdb561c09c23a7a6876c85e08b5e4d48e9f3 3560191803028444b232018ac047fdb561c09c23a7a6876c85e08b5e4d48e9f3 => 8 PathLength
verify 3 3b6cccd7e3e023ff393006f030315ee7ad9eb111b022b41fba7e5b7a3973f688 7 3560191803028444b232018ac047fdb561c09c23a7a6876c85e08b5e4d48e9f3 583c7dfb7b3055d99465544032a571e10a134b1b6f769422bbb71fd7fa167a5d,a20bf9a7cc2dc8a08f5f415a71b19f6ac427bab54d24eec868b5d3103449953a,89c929834ed1459b07f65b5e1a2143a8cf5d8efdf30f49ffffa328bb1d9133bb => 8 PathLength
verify 3 3b6cccd7e3e023ff393006f030315ee7ad9eb111b022b41fba7e5b7a3973f688 7 3560191803028444b232018ac047fdb561c09c23a7a6876c85e08b5e4d48e9f3 96a296d224f285c67bee93c30f8a309157f0daa35dc5b87e410b78630a09cfc7,fcf0a6c700dd13e274b6fba8deea8dd9b26e4eedde3495717cac8408c9c5177f,583c7dfb7b3055d99465544032a571e10a134b1b6f769422bbb71fd7fa167a5d,a20bf9a7cc2dc8a08f5f415a71b19f6ac427bab54d24eec868b5d3103449953a,89c929834ed1459b07f65b5e1a2143a8cf5d8efdf30f49ffffa328bb1d9133bb => 8 PathLength
verify 3 9bcd51240af4005168f033121ba85be5a6ed4f0e6a5fac262066729b8fbfdecb 7 3560191803028444b232018ac047fdb561c09c23a7a6876c85e08b5e4d48e9f3 fcf0a6c700dd13e274b6fba8deea8dd9b26e4eedde3495717cac8408c9c5177f,583c7dfb7b3055d99465544032a571e10a134b1b6f769422bbb71fd7fa167a5d,a20bf9a7cc2dc8a08f5f415a71b19f6ac427bab54d24eec868b5d3103449953a,89c929834ed1459b07f65b5e1a2143a8cf5d8efdf30f49ffffa328bb1d9133bb => 9 RootMismatch First 3b6cccd7e3e023ff393006f030315ee7ad9eb111b022b41fba7e5b7a3973f688
verify 4 3b6cccd7e3e023ff393006f030315ee7ad9eb111b022b41fba7e5b7a3973f688 7 3560191803028444b232018ac047fdb561c09c23a7a6876c85e08b5e4d48e9f3 89c929834ed1459b07f65b5e1a2143a8cf5d8efdf30f49ffffa328bb1d9133bb => 9 RootMismatch Second b33d441fde4015da5810a7343d89701a06a464b262624a26cb64ccf54859b80a
verify 3 3b6cccd7e3e023ff393006f030315ee7ad9eb111b022b41fba7e5b7a3973f688 7 ef7f49b620f6c7ea9b963a214da34b5021c6ded8ed57734380a311ab726aa907 fcf0a6c700dd13e274b6fba8deea8dd9b26e4eedde3495717cac8408c9c5177f,583c7dfb7b3055d99465544032a571e10a134b1b6f769422bbb71fd7fa167a5d,a20bf9a7cc2dc8a08f5f415a71b19f6ac427bab54d24eec868b5d3103449953a,89c929834ed1459b07f65b5e1a2143a8cf5d8efdf30f49ffffa328bb1d9133bb => 9 RootMismatch Second 3560191803028444b232018ac047fdb561c09c23a7a6876c85e08b5e4d48e9f3
compare 3 7 fcf0a6c700dd13e274b6fba8deea8dd9b26e4eedde3495717cac8408c9c5177f,583c7dfb7b3055d99465544032a571e10a134b1b6f769422bbb71fd7fa167a5d,a20bf9a7cc2dc8a08f5f415a71b19f6ac427bab54d24eec868b5d3103449953a,89c929834ed1459b07f65b5e1a2143a8cf5d8efdf30f49ffffa328bb1d9133bb => Prefix
compare 7 7 - => Prefix
compare 4 7 fcf0a6c700dd13e274b6fba8deea8dd9b26e4eedde3495717cac8408c9c5177f,583c7dfb7b3055d99465544032a571e10a134b1b6f769422bbb71fd7fa167a5d,a20bf9a7cc2dc8a08f5f415a71b19f6ac427bab54d24eec868b5d3103449953a,89c929834ed1459b07f65b5e1a2143a8cf5d8efdf30f49ffffa328bb1d9133bb => Unproved
compare 7 8 40d88127d4d31a3891f41598eeed41174e5bc89b1eb9bbd66a8cbfc09956a3fd,2ecd8a6b7d2845546659ad4cf443533cf921b19dc81fa83934e83821b4dfdcb7,4b8c129ed14cce2c08cfc6766db7f8cdb133b5f698b8de3d5890ea7ff7f0a8d1 => Unproved
compare 0 7 - => 1 Sizes 0 7
compare 8 7 - => 1 Sizes 8 7";

/// A refusal's number, text and fields.
pub fn refusal<X: AllocGlobal + Abort>(rt: &X, error: TileError) -> String {
    let fields = fields(rt, &error);
    let mut told = numbered(rt, error.number(), error);
    good(rt, told.push_str(fields.as_str()));
    told
}

fn fields<X: AllocGlobal + Abort>(rt: &X, error: &TileError) -> String {
    match error {
        TileError::Sizes { first, second } => good(rt, format!(in rt.alloc(); " {first} {second}")),
        TileError::RootMismatch { which, computed } => mismatch(rt, *which, computed),
        TileError::TileAbsent { level, index } => {
            good(rt, format!(in rt.alloc(); " {level} {index}"))
        }
        TileError::IndexOutOfTree { index, size } => {
            good(rt, format!(in rt.alloc(); " {index} {size}"))
        }
        _ => string(rt, ""),
    }
}

fn mismatch<X: AllocGlobal + Abort>(rt: &X, which: WhichTree, computed: &Sha256Hash) -> String {
    let computed = shown(rt, computed);
    good(rt, format!(in rt.alloc(); " {which:?} {computed}"))
}

/// The judgement of a proof between two roots.
fn verified<X: AllocGlobal + Abort>(rt: &X, words: &str) -> String {
    let (first, words) = halves(rt, words, " ");
    let (older, words) = halves(rt, words, " ");
    let (second, words) = halves(rt, words, " ");
    let (newer, hashes) = halves(rt, words, " ");
    let (first, second) = (number(rt, first), number(rt, second));
    let hashes = path(rt, hashes);
    let (older, newer) = (hash(rt, older), hash(rt, newer));
    let judged = verify_consistency(first, &older, second, &newer, hashes.as_slice());
    drop(hashes);
    match judged {
        Ok(()) => string(rt, "accepted"),
        Err(error) => refusal(rt, error),
    }
}

/// What the first leaves of eight show.
fn compared<X: AllocGlobal + Abort>(rt: &X, words: &str) -> String {
    let (first, words) = halves(rt, words, " ");
    let (second, hashes) = halves(rt, words, " ");
    let leaves = leaves(rt, 8);
    let older = there(rt, leaves.as_slice().get(..number(rt, first) as usize));
    let newer = there(rt, leaves.as_slice().get(..number(rt, second) as usize));
    let hashes = path(rt, hashes);
    let compared = compare_trees(rt.alloc(), older, newer, hashes.as_slice());
    drop(hashes);
    drop(leaves);
    match compared {
        Ok(Compared::Unproved) => string(rt, "Unproved"),
        Ok(Compared::Prefix) => string(rt, "Prefix"),
        Ok(Compared::Collision(_)) => string(rt, "a collision"),
        Err(error) => refusal(rt, error),
    }
}

/// The answer of a call that is given words.
pub fn answer<X: AllocGlobal + Abort>(rt: &X, given: &str) -> String {
    let (call, words) = halves(rt, given, " ");
    match place(call, "verify compare") {
        0 => verified(rt, words),
        1 => compared(rt, words),
        _ => string(rt, "no call"),
    }
}

#[test]
fn trees_grow_as_their_proofs_say(rt: HostRuntime) {
    hold(&rt, "grown", GROWN);
}
