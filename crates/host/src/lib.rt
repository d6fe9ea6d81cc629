// What a program in C links: the functions of host/h8.h, over numbers and lent arrays. `specs/` says what each returns and leaves.
#![tactic(auto)]

mod answers;
mod cuts;
mod decoding;
mod figures;
mod lent;
mod replays;
mod routines;
mod stepping;
