// What C calls: an export for each function of the libraries that include/hsd.h declares, with that function's clauses. Nothing else stands here.
#![tactic(auto)]

mod files;
mod frames;
mod nights;
mod reels;
