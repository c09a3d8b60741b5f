// Engines that have jobs at random, and engines at rest; the calls of an engine, one by one; what their client says where an answer is
// lost; a teller that nobody hears; workers that end while jobs are posted; and the caller that the guide shows.
mod at_rest;
mod breaking_off;
mod calls;
mod desks;
mod ending;
mod hearing;
mod serving;
mod there_and_back;
