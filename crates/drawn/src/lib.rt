// Texts whose definitions stand in any order (specification, 4.11 to 4.15): their meaning, and the table that is made of them. Definitions and laws stand beside it.
#![tactic(auto)]

use circuit::Counts;
