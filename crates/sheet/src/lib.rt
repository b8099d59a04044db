// The class sheet: the judge, which answers every byte string with its refusal or the places of its bodies. Its nine refusals and the class
// that it stands for are in specs/, what is shown of them in proofs/.
#![tactic(auto)]

pub mod judging;
