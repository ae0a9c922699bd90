//! That a client finds an offered chain: where a repository and a store tell their content and don't fail, and the
//! repository offers a chain, no call refuses but for want of memory.
#![tactic(auto)]
