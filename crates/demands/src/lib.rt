// What a plan and a table get, and what is promised of it. How lists are found is not known here.
#![tactic(auto)]

pub mod listing;
