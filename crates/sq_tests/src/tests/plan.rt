// What is written of plans.
use sq_plan::Plan;
use std::alloc::Global;
use std::test::Fail;

// Texts of plans, and what is written for the plans that are read from them.
const WRITTEN: [(&str, &str); 8] = [
    (
        r#"{"x":null,"version":1,"partitions":1,"ranges":[[0,4294967296,0]]}"#,
        r#"{"partitions":1,"ranges":[[0,4294967296,0]],"version":1}"#,
    ),
    (
        " \t\r\n{ \"version\" : 1 , \"partitions\" : 1 ,\n\"ranges\" : [ [ 0 , 4294967296 , 0 ] ] } \r",
        r#"{"partitions":1,"ranges":[[0,4294967296,0]],"version":1}"#,
    ),
    (
        r#"{"version":2,"partitions":3,"ranges":[],"version":1,"partitions":2,"ranges":[[0,9,1],[9,4294967296,0]]}"#,
        r#"{"partitions":2,"ranges":[[0,9,1],[9,4294967296,0]],"version":1}"#,
    ),
    (
        r#"{"ranges":[[0,10,1],[10,20,1],[20,4294967295,0],[4294967295,4294967296,15]],"version":1,"partitions":16}"#,
        r#"{"partitions":16,"ranges":[[0,10,1],[10,20,1],[20,4294967295,0],[4294967295,4294967296,15]],"version":1}"#,
    ),
    (
        r#"{"partitions":4,"ranges":[[0,5,0],[5,10,1],[10,15,2],[15,20,3],[20,4294967296,0]],"version":1}"#,
        r#"{"partitions":4,"ranges":[[0,5,0],[5,10,1],[10,15,2],[15,20,3],[20,4294967296,0]],"version":1}"#,
    ),
    (
        r#"{"version":1,"partitions":1,"ranges":[[0,4294967296,0]],"stages":"auto"}"#,
        r#"{"partitions":1,"ranges":[[0,4294967296,0]],"version":1}"#,
    ),
    (
        r#"{"version":2,"partitions":64,"ranges":[[0,4294967296,63]],"stages":"one"}"#,
        r#"{"partitions":64,"ranges":[[0,4294967296,63]],"stages":"one","version":2}"#,
    ),
    (
        r#"{"stages" : "auto","ranges":[[0,9,1],[9,4294967296,0]],"version":2,"partitions":2}"#,
        r#"{"partitions":2,"ranges":[[0,9,1],[9,4294967296,0]],"stages":"auto","version":2}"#,
    ),
];

// What is written of the plan of a text.
fn rewritten(alloc: Global, text: &str) -> Result<String, Fail> {
    let plan = Plan::read(alloc, text.as_bytes())?;
    Ok(plan.write()?)
}

#[test]
fn written(rt: HostRuntime) -> Result<(), Fail> {
    for (text, wanted) in &WRITTEN {
        assert_eq!(rt; rewritten(rt.alloc(), text)?.as_str(), *wanted);
    }
    Ok(())
}
