// The lanes have no code here: what the passes over sequence rows leave stands in specs/, and the engine that follows it cites it.

#![tactic(auto)]
