//! Tests of the crates that keep loaded classes, look in them and judge them together, and of what a domain keeps of them: small
//! classes, worlds and tables of cases by hand. The crate has tests alone, so that none of those crates is proved a second time for
//! its tests.
#![tactic(auto)]

#[cfg(test)]
mod class_init_tests;
#[cfg(test)]
mod class_rows;
#[cfg(test)]
mod class_table_tests;
#[cfg(test)]
mod class_texts_tests;
#[cfg(test)]
mod domain_resolver_tests;
#[cfg(test)]
mod handler_cover_tests;
#[cfg(test)]
mod member_index_tests;
#[cfg(test)]
mod member_lookup_tests;
#[cfg(test)]
mod resolver_rules_tests;
#[cfg(test)]
mod shared_interfaces_tests;
#[cfg(test)]
mod shared_values_tests;
#[cfg(test)]
mod stub_maker_tests;
#[cfg(test)]
mod system_records_tests;
#[cfg(test)]
mod system_table_tests;
#[cfg(test)]
mod type_frames_tests;
