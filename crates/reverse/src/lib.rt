// No code: what the packets of the writer are, and what the collector makes of them.
#![tactic(auto)]
