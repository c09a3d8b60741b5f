// What is called of the libraries, and the results.
mod example;
mod exec;
mod fixtures;
mod inputs;
mod link;
mod plan;
mod pull;
mod readers;
mod reports;
mod schema;
mod status;
mod store;
mod tree;
mod world;
