// No code: cases that are computed from the contracts of the public calls, and answers that those contracts rule out; all of it stands beside this file.
#![tactic(auto)]
