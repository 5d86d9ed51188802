//! Jobs of the table of vectors, each with its answer and the status that the process ends with.
use crate::devices::ran;
use elasticlunr_device::outcome::RunError;
use elasticlunr_job::outcome::{Outcome, Refusal};
use elasticlunr_job::run::status;
use std::test::Fail;

/// Jobs that are printed: the first, the pretty one, and those of removed documents among them.
const PRINTED: [(&str, &str); 10] = [
    (
        "{\"fields\":[\"body\"],\"docs\":[[\"1\",\"go\"]]}",
        "{\"documentStore\":{\"docInfo\":{\"1\":{\"body\":1}},\"docs\":{\"1\":{\"body\":\"go\",\"id\":\"1\"}},\"length\":1,\"save\":true},\"fields\":[\"body\"],\"index\":{\"body\":{\"root\":{\"df\":0,\"docs\":{},\"g\":{\"df\":0,\"docs\":{},\"o\":{\"df\":1,\"docs\":{\"1\":{\"tf\":1000000}}}}}}},\"lang\":\"English\",\"pipeline\":[\"trimmer\",\"stopWordFilter\",\"stemmer\"],\"ref\":\"id\",\"version\":\"0.9.5\"}\n",
    ),
    (
        "{\"fields\":[],\"docs\":[]}",
        "{\"documentStore\":{\"docInfo\":{},\"docs\":{},\"length\":0,\"save\":true},\"fields\":[],\"index\":{},\"lang\":\"English\",\"pipeline\":[\"trimmer\",\"stopWordFilter\",\"stemmer\"],\"ref\":\"id\",\"version\":\"0.9.5\"}\n",
    ),
    (
        "{\"fields\": [\"ü\"], \"docs\": [], \"lang\": \"German\", \"save\": true, \"pretty\": true}",
        "{\n  \"documentStore\": {\n    \"docInfo\": {},\n    \"docs\": {},\n    \"length\": 0,\n    \"save\": true\n  },\n  \"fields\": [\n    \"ü\"\n  ],\n  \"index\": {\n    \"ü\": {\n      \"root\": {\n        \"df\": 0,\n        \"docs\": {}\n      }\n    }\n  },\n  \"lang\": \"German\",\n  \"pipeline\": [\n    \"trimmer-de\",\n    \"stopWordFilter-de\"\n  ],\n  \"ref\": \"id\",\n  \"version\": \"0.9.5\"\n}\n",
    ),
    (
        "{\"fields\":[\"title\"],\"docs\":[[\"a\",\"Red fox\"]],\"ref\":\"key\",\"save\":false}",
        "{\"documentStore\":{\"docInfo\":{\"a\":{\"title\":2}},\"docs\":{\"a\":{}},\"length\":1,\"save\":false},\"fields\":[\"title\"],\"index\":{\"title\":{\"root\":{\"df\":0,\"docs\":{},\"f\":{\"df\":0,\"docs\":{},\"o\":{\"df\":0,\"docs\":{},\"x\":{\"df\":1,\"docs\":{\"a\":{\"tf\":1000000}}}}},\"r\":{\"df\":0,\"docs\":{},\"e\":{\"d\":{\"df\":1,\"docs\":{\"a\":{\"tf\":1000000}}},\"df\":0,\"docs\":{}}}}}},\"lang\":\"English\",\"pipeline\":[\"trimmer\",\"stopWordFilter\",\"stemmer\"],\"ref\":\"key\",\"version\":\"0.9.5\"}\n",
    ),
    (
        "{\"fields\":[\"body\"],\"docs\":[[\"1\",\"red\"]],\"remove\":[\"1\"]}",
        "{\"documentStore\":{\"docInfo\":{},\"docs\":{},\"length\":0,\"save\":true},\"fields\":[\"body\"],\"index\":{\"body\":{\"root\":{\"df\":0,\"docs\":{},\"r\":{\"df\":0,\"docs\":{},\"e\":{\"d\":{\"df\":0,\"docs\":{}},\"df\":0,\"docs\":{}}}}}},\"lang\":\"English\",\"pipeline\":[\"trimmer\",\"stopWordFilter\",\"stemmer\"],\"ref\":\"id\",\"version\":\"0.9.5\"}\n",
    ),
    (
        "{\"fields\":[\"body\"],\"docs\":[[\"1\",\"red\"],[\"2\",\"rest\"]],\"remove\":[\"1\"],\"compact\":true}",
        "{\"documentStore\":{\"docInfo\":{\"2\":{\"body\":1}},\"docs\":{\"2\":{\"body\":\"rest\",\"id\":\"2\"}},\"length\":1,\"save\":true},\"fields\":[\"body\"],\"index\":{\"body\":{\"root\":{\"df\":0,\"docs\":{},\"r\":{\"df\":0,\"docs\":{},\"e\":{\"df\":0,\"docs\":{},\"s\":{\"df\":0,\"docs\":{},\"t\":{\"df\":1,\"docs\":{\"2\":{\"tf\":1000000}}}}}}}}},\"lang\":\"English\",\"pipeline\":[\"trimmer\",\"stopWordFilter\",\"stemmer\"],\"ref\":\"id\",\"version\":\"0.9.5\"}\n",
    ),
    (
        "{\"fields\":[\"body\"],\"docs\":[[\"1\",\"red\"],[\"2\",\"rest\"]],\"remove\":[\"1\"]}",
        "{\"documentStore\":{\"docInfo\":{\"2\":{\"body\":1}},\"docs\":{\"2\":{\"body\":\"rest\",\"id\":\"2\"}},\"length\":1,\"save\":true},\"fields\":[\"body\"],\"index\":{\"body\":{\"root\":{\"df\":0,\"docs\":{},\"r\":{\"df\":0,\"docs\":{},\"e\":{\"d\":{\"df\":0,\"docs\":{}},\"df\":0,\"docs\":{},\"s\":{\"df\":0,\"docs\":{},\"t\":{\"df\":1,\"docs\":{\"2\":{\"tf\":1000000}}}}}}}}},\"lang\":\"English\",\"pipeline\":[\"trimmer\",\"stopWordFilter\",\"stemmer\"],\"ref\":\"id\",\"version\":\"0.9.5\"}\n",
    ),
    (
        "{\"fields\":[\"body\"],\"docs\":[[\"1\",\"red red\"],[\"1\",\"blue\"]]}",
        "{\"documentStore\":{\"docInfo\":{\"1\":{\"body\":1}},\"docs\":{\"1\":{\"body\":\"blue\",\"id\":\"1\"}},\"length\":1,\"save\":true},\"fields\":[\"body\"],\"index\":{\"body\":{\"root\":{\"b\":{\"df\":0,\"docs\":{},\"l\":{\"df\":0,\"docs\":{},\"u\":{\"df\":0,\"docs\":{},\"e\":{\"df\":1,\"docs\":{\"1\":{\"tf\":1000000}}}}}},\"df\":0,\"docs\":{},\"r\":{\"df\":0,\"docs\":{},\"e\":{\"d\":{\"df\":0,\"docs\":{}},\"df\":0,\"docs\":{}}}}}},\"lang\":\"English\",\"pipeline\":[\"trimmer\",\"stopWordFilter\",\"stemmer\"],\"ref\":\"id\",\"version\":\"0.9.5\"}\n",
    ),
    (
        "{\"fields\":[\"body\"],\"docs\":[[\"1\",\"어떤 사람\"]],\"lang\":\"Korean\"}",
        "{\"documentStore\":{\"docInfo\":{\"1\":{\"body\":1}},\"docs\":{\"1\":{\"body\":\"어떤 사람\",\"id\":\"1\"}},\"length\":1,\"save\":true},\"fields\":[\"body\"],\"index\":{\"body\":{\"root\":{\"df\":0,\"docs\":{},\"사\":{\"df\":0,\"docs\":{},\"람\":{\"df\":1,\"docs\":{\"1\":{\"tf\":1000000}}}}}}},\"lang\":\"Korean\",\"pipeline\":[\"trimmer-ko\",\"stopWordFilter-ko\",\"stemmer-ko\"],\"ref\":\"id\",\"version\":\"0.9.5\"}\n",
    ),
    (
        "{\"fields\":[\"body\"],\"docs\":[[\"1\",\"PÅ øen!\"]],\"lang\":\"Danish\"}",
        "{\"documentStore\":{\"docInfo\":{\"1\":{\"body\":1}},\"docs\":{\"1\":{\"body\":\"PÅ øen!\",\"id\":\"1\"}},\"length\":1,\"save\":true},\"fields\":[\"body\"],\"index\":{\"body\":{\"root\":{\"df\":0,\"docs\":{},\"ø\":{\"df\":0,\"docs\":{},\"e\":{\"df\":0,\"docs\":{},\"n\":{\"df\":1,\"docs\":{\"1\":{\"tf\":1000000}}}}}}}},\"lang\":\"Danish\",\"pipeline\":[\"trimmer-da\",\"stopWordFilter-da\"],\"ref\":\"id\",\"version\":\"0.9.5\"}\n",
    ),
];

/// A job for each kind of refusal.
const REFUSED: [(&str, Refusal, &str); 5] = [
    (
        "{\"fields\": [\"root\"], \"docs\": [[\"1\"]], \"lang\": Dutch\", \"ref\": \"가\"}",
        Refusal::NotJson,
        "refused: not JSON\n",
    ),
    (
        "{\"fields\": [], \"docs\": 1, \"lang\": \"Swedish\", \"compact\": false}",
        Refusal::NotAJob,
        "refused: not a job\n",
    ),
    (
        "{\"fields\":[],\"docs\":[],\"lang\":\"english\"}",
        Refusal::UnknownLanguage,
        "refused: unknown language\n",
    ),
    (
        "{\"fields\":[\"a\",\"a\"],\"docs\":[]}",
        Refusal::DuplicateField,
        "refused: duplicate field\n",
    ),
    (
        "{\"fields\":[\"a\"],\"docs\":[[\"1\",\"x\",\"y\"]]}",
        Refusal::TooManyValues,
        "refused: too many values\n",
    ),
];

#[test]
fn printed_jobs_end_with_0(rt: HostRuntime) -> Result<(), Fail> {
    for (job, text) in PRINTED {
        let mut taken = Vec::new(rt.alloc());
        let ended = ran(rt.alloc(), job.as_bytes(), &mut taken);
        assert_eq!(rt; ended, Ok(Outcome::Printed), "{job}");
        assert_eq!(rt; status(&ended), 0);
        assert!(rt; taken.as_slice() == text.as_bytes(), "{job}");
    }
    Ok(())
}

#[test]
fn refused_jobs_end_with_2(rt: HostRuntime) -> Result<(), Fail> {
    for (job, refusal, text) in REFUSED {
        let mut taken = Vec::new(rt.alloc());
        let ended = ran(rt.alloc(), job.as_bytes(), &mut taken);
        assert_eq!(rt; ended, Ok(Outcome::Refused(refusal)), "{job}");
        assert_eq!(rt; status(&ended), 2);
        assert!(rt; taken.as_slice() == text.as_bytes(), "{job}");
    }
    Ok(())
}

#[test]
fn faults_end_with_1(rt: HostRuntime) -> Result<(), Fail> {
    assert_eq!(rt; status(&Err(RunError::Device)), 1);
    assert_eq!(rt; status(&Err(RunError::Memory)), 1);
    Ok(())
}
