//! What the controller's state is, the nodes of an image, and the steps of the controller:
//! definitions alone, which the contracts above cite. `docs/DEFINITIONS.md` reads through them.
#![tactic(auto)]
