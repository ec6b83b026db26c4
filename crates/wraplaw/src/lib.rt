// The laws of wrappers, which take a record by `&mut`, and of lenders, which lend them a local one: proofs alone, of
// walks of MIR. It has no code, and no crate here rests on it: the kit walks such functions by itself.
#![tactic(auto)]
