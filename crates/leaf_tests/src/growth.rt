// Want of memory: frames and the candidates of an uplink, gatherings, and the allocator that refuses.

mod frames;
mod gatherings;
mod refusals;
