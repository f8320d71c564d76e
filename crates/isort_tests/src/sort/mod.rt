//! Tests of isort_sort. The rows of checks/gate/cases tell what texts are sorted to.
mod blocks;
mod metered;
mod sorted;
mod writing;
