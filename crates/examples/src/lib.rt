// Small examples of orders, lines, plans, messages, drafts and registers, proved and run.
// They stand apart, since a crate with tests is proved twice.
#![tactic(auto)]

#[cfg(test)]
mod draft_examples;
#[cfg(test)]
mod line_examples;
#[cfg(test)]
mod message_examples;
#[cfg(test)]
mod order_examples;
#[cfg(test)]
mod plan_examples;
#[cfg(test)]
mod register_examples;
