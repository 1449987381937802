mod making;
mod refusals;
mod rows;
