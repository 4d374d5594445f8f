// What the calls for C promise together, proved from their own contracts: specs/TablesAndWalks, specs/ChosenChain and specs/BadStretches. There is no code here.
#![tactic(auto)]
