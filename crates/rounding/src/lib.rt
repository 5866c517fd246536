// The nearest binary32 magnitude to an exact result: its definitions are in specs, its laws in proofs. The
// contract of the writer carries them.
#![tactic(auto)]
