// Want of memory: tickets, a station and its calls, and its workers.

mod calls;
mod cases;
mod desk_cases;
mod ends;
mod serve_tests;
mod starts;
mod stations;
mod tickets;
mod works;
