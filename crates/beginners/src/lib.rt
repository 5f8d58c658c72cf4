// The beginners' board (specification, 4.19 and 5.15): its rules, what its two calls answer, and that its run always closes. Definitions and laws stand beside it.
#![tactic(auto)]

use circuit::Counts;
