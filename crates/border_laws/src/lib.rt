// What a border that a district holds means for the entries of the district's table.
// Contract: an entry that is right for the district is safe at every rational place of the border.
#![tactic(auto)]

pub mod laws;
