#![tactic(auto)]

// The demands, said of the replies of the public operations. There is no code here.
