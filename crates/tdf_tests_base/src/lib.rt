//! Tests of `tdf_io`, `tdf_base`, `tdf_fixed` and `tdf_trace`: devices, tables of casts, and each public function once on its happy path.
#![tactic(auto)]

#[cfg(test)]
mod tests;
