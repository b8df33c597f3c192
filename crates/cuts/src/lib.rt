// What a cutter's calls mean, and the law over every list of them. The code is in `cutters`.
#![tactic(auto)]
