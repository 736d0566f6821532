#![tactic(auto)]

// The promises: no code, only what is proved of the other crates. `proofs/Promises.antt` is the front door: the customer's demands and
// orders as theorems about the definitions that the contracts of `writer`, `plain`, `feed` and `cycle` cite; `Writer`, `Engines`, `Tenants`
// and `Banks` have those of orders 1, 5, 9 and 10. Beside it: what people rely on (`Keeper`), the link to the contracts (`Contracts*`), one
// outcome for every public function (`Unique*`), the nights that document 01 marks, those of each step and those of document 02's orders
// (`Nights`), and an instance that meets the premises (`Instance*`).
