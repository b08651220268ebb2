// Tests of whole runs with plugins that edit what they visit, or fail.
#![tactic(auto)]

#[cfg(test)]
mod runs;
