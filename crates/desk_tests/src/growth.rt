// Want of memory: a desk that is made, and a run on one thread.

mod at_desk;
mod run_tests;
