// Successive numbers: the largest of a figure over them (specs/Largest, its laws in specs/LargestLaws), and the least of them that passes a test (specs/Least, LeastLaws). There is no code here.
#![tactic(auto)]
