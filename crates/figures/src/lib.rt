// No code: the bench sheet's starred figures of document 01, in one table under one claim, over the definitions that the contracts cite.
#![tactic(auto)]
