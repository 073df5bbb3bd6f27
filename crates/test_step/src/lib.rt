//! Tests of the top call over files and a sink in memory, which fail at each call in turn, and over gates that look on.
#![tactic(auto)]

#[cfg(test)]
mod fixture;
#[cfg(test)]
mod gates;
#[cfg(test)]
mod outside;
#[cfg(test)]
mod pieces;
