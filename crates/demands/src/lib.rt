// No product code: what is promised of board and collector together stands in specs/, and is proved in proofs/.

#![tactic(auto)]
