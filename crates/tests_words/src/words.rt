// Words as strings.
use std::alloc::Global;
use std::test::Fail;

/// The words as strings.
pub(crate) fn owned(alloc: Global, words: &[&str]) -> Result<Vec<String>, Fail> {
    let mut all = Vec::new(alloc);
    for word in words {
        all.push(word.to_string(alloc)?)?;
    }
    Ok(all)
}
