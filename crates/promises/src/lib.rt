// No functions: theorems that speak of whole calls, by their contracts. Cutting (demand 3), and the worked examples of document 01.

#![tactic(auto)]
