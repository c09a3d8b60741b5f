// Runs that are made by hand or by their workers, and the results.
mod audit;
mod closing;
mod driver;
mod gates;
mod live;
mod node;
mod round;
mod run;
mod stages;
mod text;
