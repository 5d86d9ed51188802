//! The calls of builders and of indexes, and what each returns. docs/TABLES.md says how a row is written.

/// The rows.
pub const ROWS: &str = r##"Index: a document is printed
["Index::new","body"] -> done
["add_doc","1","go"] -> done
["to_value"] -> {"documentStore":{"docInfo":{"1":{"body":1}},"docs":{"1":{"body":"go","id":"1"}},"length":1,"save":true},"fields":["body"],"index":{"body":{"root":{"df":0,"docs":{},"g":{"df":0,"docs":{},"o":{"df":1,"docs":{"1":{"tf":1000000}}}}}}},"lang":"English","pipeline":["trimmer","stopWordFilter","stemmer"],"ref":"id","version":"0.9.5"}
["to_json"] -> "{\"documentStore\":{\"docInfo\":{\"1\":{\"body\":1}},\"docs\":{\"1\":{\"body\":\"go\",\"id\":\"1\"}},\"length\":1,\"save\":true},\"fields\":[\"body\"],\"index\":{\"body\":{\"root\":{\"df\":0,\"docs\":{},\"g\":{\"df\":0,\"docs\":{},\"o\":{\"df\":1,\"docs\":{\"1\":{\"tf\":1000000}}}}}}},\"lang\":\"English\",\"pipeline\":[\"trimmer\",\"stopWordFilter\",\"stemmer\"],\"ref\":\"id\",\"version\":\"0.9.5\"}"
["to_json_pretty"] -> "{\n  \"documentStore\": {\n    \"docInfo\": {\n      \"1\": {\n        \"body\": 1\n      }\n    },\n    \"docs\": {\n      \"1\": {\n        \"body\": \"go\",\n        \"id\": \"1\"\n      }\n    },\n    \"length\": 1,\n    \"save\": true\n  },\n  \"fields\": [\n    \"body\"\n  ],\n  \"index\": {\n    \"body\": {\n      \"root\": {\n        \"df\": 0,\n        \"docs\": {},\n        \"g\": {\n          \"df\": 0,\n          \"docs\": {},\n          \"o\": {\n            \"df\": 1,\n            \"docs\": {\n              \"1\": {\n                \"tf\": 1000000\n              }\n            }\n          }\n        }\n      }\n    }\n  },\n  \"lang\": \"English\",\n  \"pipeline\": [\n    \"trimmer\",\n    \"stopWordFilter\",\n    \"stemmer\"\n  ],\n  \"ref\": \"id\",\n  \"version\": \"0.9.5\"\n}"
["document_store"] -> 1
["get_fields","body"] -> true
["get_fields"] -> false

Index: fields are printed in the order of their names
["Index::new","title","body"] -> done
["add_doc","\"1\"","a \"title\"\n","\u001f"] -> done
["to_value"] -> {"documentStore":{"docInfo":{"\"1\"":{"body":0,"title":1}},"docs":{"\"1\"":{"body":"\u001f","id":"\"1\"","title":"a \"title\"\n"}},"length":1,"save":true},"fields":["title","body"],"index":{"body":{"root":{"df":0,"docs":{}}},"title":{"root":{"df":0,"docs":{},"t":{"df":0,"docs":{},"i":{"df":0,"docs":{},"t":{"df":0,"docs":{},"l":{"df":1,"docs":{"\"1\"":{"tf":1000000}}}}}}}}},"lang":"English","pipeline":["trimmer","stopWordFilter","stemmer"],"ref":"id","version":"0.9.5"}
["to_json"] -> "{\"documentStore\":{\"docInfo\":{\"\\\"1\\\"\":{\"body\":0,\"title\":1}},\"docs\":{\"\\\"1\\\"\":{\"body\":\"\\u001f\",\"id\":\"\\\"1\\\"\",\"title\":\"a \\\"title\\\"\\n\"}},\"length\":1,\"save\":true},\"fields\":[\"title\",\"body\"],\"index\":{\"body\":{\"root\":{\"df\":0,\"docs\":{}}},\"title\":{\"root\":{\"df\":0,\"docs\":{},\"t\":{\"df\":0,\"docs\":{},\"i\":{\"df\":0,\"docs\":{},\"t\":{\"df\":0,\"docs\":{},\"l\":{\"df\":1,\"docs\":{\"\\\"1\\\"\":{\"tf\":1000000}}}}}}}}},\"lang\":\"English\",\"pipeline\":[\"trimmer\",\"stopWordFilter\",\"stemmer\"],\"ref\":\"id\",\"version\":\"0.9.5\"}"
["to_json_pretty"] -> "{\n  \"documentStore\": {\n    \"docInfo\": {\n      \"\\\"1\\\"\": {\n        \"body\": 0,\n        \"title\": 1\n      }\n    },\n    \"docs\": {\n      \"\\\"1\\\"\": {\n        \"body\": \"\\u001f\",\n        \"id\": \"\\\"1\\\"\",\n        \"title\": \"a \\\"title\\\"\\n\"\n      }\n    },\n    \"length\": 1,\n    \"save\": true\n  },\n  \"fields\": [\n    \"title\",\n    \"body\"\n  ],\n  \"index\": {\n    \"body\": {\n      \"root\": {\n        \"df\": 0,\n        \"docs\": {}\n      }\n    },\n    \"title\": {\n      \"root\": {\n        \"df\": 0,\n        \"docs\": {},\n        \"t\": {\n          \"df\": 0,\n          \"docs\": {},\n          \"i\": {\n            \"df\": 0,\n            \"docs\": {},\n            \"t\": {\n              \"df\": 0,\n              \"docs\": {},\n              \"l\": {\n                \"df\": 1,\n                \"docs\": {\n                  \"\\\"1\\\"\": {\n                    \"tf\": 1000000\n                  }\n                }\n              }\n            }\n          }\n        }\n      }\n    }\n  },\n  \"lang\": \"English\",\n  \"pipeline\": [\n    \"trimmer\",\n    \"stopWordFilter\",\n    \"stemmer\"\n  ],\n  \"ref\": \"id\",\n  \"version\": \"0.9.5\"\n}"
["get_fields","title","body"] -> true
["get_fields","body","title"] -> false

Index: each field has its tokens
["Index::new","title","body"] -> done
["add_doc","1","This is a title","This is body text!"] -> done
["inverted_index","title","titl"] -> 1
["get_term_frequency","title","1","titl"] -> 1000000
["get_term_frequency","body","1","bodi"] -> 1000000
["get_term_frequency","body","1","text"] -> 1000000
["inverted_index","id","1"] -> null
["to_value"] -> {"documentStore":{"docInfo":{"1":{"body":2,"title":1}},"docs":{"1":{"body":"This is body text!","id":"1","title":"This is a title"}},"length":1,"save":true},"fields":["title","body"],"index":{"body":{"root":{"b":{"df":0,"docs":{},"o":{"d":{"df":0,"docs":{},"i":{"df":1,"docs":{"1":{"tf":1000000}}}},"df":0,"docs":{}}},"df":0,"docs":{},"t":{"df":0,"docs":{},"e":{"df":0,"docs":{},"x":{"df":0,"docs":{},"t":{"df":1,"docs":{"1":{"tf":1000000}}}}}}}},"title":{"root":{"df":0,"docs":{},"t":{"df":0,"docs":{},"i":{"df":0,"docs":{},"t":{"df":0,"docs":{},"l":{"df":1,"docs":{"1":{"tf":1000000}}}}}}}}},"lang":"English","pipeline":["trimmer","stopWordFilter","stemmer"],"ref":"id","version":"0.9.5"}
["to_json"] -> "{\"documentStore\":{\"docInfo\":{\"1\":{\"body\":2,\"title\":1}},\"docs\":{\"1\":{\"body\":\"This is body text!\",\"id\":\"1\",\"title\":\"This is a title\"}},\"length\":1,\"save\":true},\"fields\":[\"title\",\"body\"],\"index\":{\"body\":{\"root\":{\"b\":{\"df\":0,\"docs\":{},\"o\":{\"d\":{\"df\":0,\"docs\":{},\"i\":{\"df\":1,\"docs\":{\"1\":{\"tf\":1000000}}}},\"df\":0,\"docs\":{}}},\"df\":0,\"docs\":{},\"t\":{\"df\":0,\"docs\":{},\"e\":{\"df\":0,\"docs\":{},\"x\":{\"df\":0,\"docs\":{},\"t\":{\"df\":1,\"docs\":{\"1\":{\"tf\":1000000}}}}}}}},\"title\":{\"root\":{\"df\":0,\"docs\":{},\"t\":{\"df\":0,\"docs\":{},\"i\":{\"df\":0,\"docs\":{},\"t\":{\"df\":0,\"docs\":{},\"l\":{\"df\":1,\"docs\":{\"1\":{\"tf\":1000000}}}}}}}}},\"lang\":\"English\",\"pipeline\":[\"trimmer\",\"stopWordFilter\",\"stemmer\"],\"ref\":\"id\",\"version\":\"0.9.5\"}"
["to_json_pretty"] -> "{\n  \"documentStore\": {\n    \"docInfo\": {\n      \"1\": {\n        \"body\": 2,\n        \"title\": 1\n      }\n    },\n    \"docs\": {\n      \"1\": {\n        \"body\": \"This is body text!\",\n        \"id\": \"1\",\n        \"title\": \"This is a title\"\n      }\n    },\n    \"length\": 1,\n    \"save\": true\n  },\n  \"fields\": [\n    \"title\",\n    \"body\"\n  ],\n  \"index\": {\n    \"body\": {\n      \"root\": {\n        \"b\": {\n          \"df\": 0,\n          \"docs\": {},\n          \"o\": {\n            \"d\": {\n              \"df\": 0,\n              \"docs\": {},\n              \"i\": {\n                \"df\": 1,\n                \"docs\": {\n                  \"1\": {\n                    \"tf\": 1000000\n                  }\n                }\n              }\n            },\n            \"df\": 0,\n            \"docs\": {}\n          }\n        },\n        \"df\": 0,\n        \"docs\": {},\n        \"t\": {\n          \"df\": 0,\n          \"docs\": {},\n          \"e\": {\n            \"df\": 0,\n            \"docs\": {},\n            \"x\": {\n              \"df\": 0,\n              \"docs\": {},\n              \"t\": {\n                \"df\": 1,\n                \"docs\": {\n                  \"1\": {\n                    \"tf\": 1000000\n                  }\n                }\n              }\n            }\n          }\n        }\n      }\n    },\n    \"title\": {\n      \"root\": {\n        \"df\": 0,\n        \"docs\": {},\n        \"t\": {\n          \"df\": 0,\n          \"docs\": {},\n          \"i\": {\n            \"df\": 0,\n            \"docs\": {},\n            \"t\": {\n              \"df\": 0,\n              \"docs\": {},\n              \"l\": {\n                \"df\": 1,\n                \"docs\": {\n                  \"1\": {\n                    \"tf\": 1000000\n                  }\n                }\n              }\n            }\n          }\n        }\n      }\n    }\n  },\n  \"lang\": \"English\",\n  \"pipeline\": [\n    \"trimmer\",\n    \"stopWordFilter\",\n    \"stemmer\"\n  ],\n  \"ref\": \"id\",\n  \"version\": \"0.9.5\"\n}"

Index: a field counts its own tokens alone
["Index::new","title","body"] -> done
["add_doc","1","eggs","bread"] -> done
["has_token","body","egg"] -> false
["get_term_frequency","title","1","egg"] -> 1000000
["get_term_frequency","body","1","bread"] -> 1000000
["to_value"] -> {"documentStore":{"docInfo":{"1":{"body":1,"title":1}},"docs":{"1":{"body":"bread","id":"1","title":"eggs"}},"length":1,"save":true},"fields":["title","body"],"index":{"body":{"root":{"b":{"df":0,"docs":{},"r":{"df":0,"docs":{},"e":{"a":{"d":{"df":1,"docs":{"1":{"tf":1000000}}},"df":0,"docs":{}},"df":0,"docs":{}}}},"df":0,"docs":{}}},"title":{"root":{"df":0,"docs":{},"e":{"df":0,"docs":{},"g":{"df":0,"docs":{},"g":{"df":1,"docs":{"1":{"tf":1000000}}}}}}}},"lang":"English","pipeline":["trimmer","stopWordFilter","stemmer"],"ref":"id","version":"0.9.5"}

Index: an empty value has no tokens
["Index::new","title","body"] -> done
["add_doc","1","","test"] -> done
["get_term_frequency","body","1","test"] -> 1000000
["to_value"] -> {"documentStore":{"docInfo":{"1":{"body":1,"title":0}},"docs":{"1":{"body":"test","id":"1","title":""}},"length":1,"save":true},"fields":["title","body"],"index":{"body":{"root":{"df":0,"docs":{},"t":{"df":0,"docs":{},"e":{"df":0,"docs":{},"s":{"df":0,"docs":{},"t":{"df":1,"docs":{"1":{"tf":1000000}}}}}}}},"title":{"root":{"df":0,"docs":{}}}},"lang":"English","pipeline":["trimmer","stopWordFilter","stemmer"],"ref":"id","version":"0.9.5"}

Index: a document replaces the one before
["Index::new","body"] -> done
["add_doc","1","red red"] -> done
["to_value"] -> {"documentStore":{"docInfo":{"1":{"body":2}},"docs":{"1":{"body":"red red","id":"1"}},"length":1,"save":true},"fields":["body"],"index":{"body":{"root":{"df":0,"docs":{},"r":{"df":0,"docs":{},"e":{"d":{"df":1,"docs":{"1":{"tf":1414213}}},"df":0,"docs":{}}}}}},"lang":"English","pipeline":["trimmer","stopWordFilter","stemmer"],"ref":"id","version":"0.9.5"}
["add_doc","1","blue"] -> done
["has_token","body","red"] -> true
["get_docs","body","red"] -> {}
["get_docs","body","blue"] -> {"1":1000000}
["to_value"] -> {"documentStore":{"docInfo":{"1":{"body":1}},"docs":{"1":{"body":"blue","id":"1"}},"length":1,"save":true},"fields":["body"],"index":{"body":{"root":{"b":{"df":0,"docs":{},"l":{"df":0,"docs":{},"u":{"df":0,"docs":{},"e":{"df":1,"docs":{"1":{"tf":1000000}}}}}},"df":0,"docs":{},"r":{"df":0,"docs":{},"e":{"d":{"df":0,"docs":{}},"df":0,"docs":{}}}}}},"lang":"English","pipeline":["trimmer","stopWordFilter","stemmer"],"ref":"id","version":"0.9.5"}
["to_json"] -> "{\"documentStore\":{\"docInfo\":{\"1\":{\"body\":1}},\"docs\":{\"1\":{\"body\":\"blue\",\"id\":\"1\"}},\"length\":1,\"save\":true},\"fields\":[\"body\"],\"index\":{\"body\":{\"root\":{\"b\":{\"df\":0,\"docs\":{},\"l\":{\"df\":0,\"docs\":{},\"u\":{\"df\":0,\"docs\":{},\"e\":{\"df\":1,\"docs\":{\"1\":{\"tf\":1000000}}}}}},\"df\":0,\"docs\":{},\"r\":{\"df\":0,\"docs\":{},\"e\":{\"d\":{\"df\":0,\"docs\":{}},\"df\":0,\"docs\":{}}}}}},\"lang\":\"English\",\"pipeline\":[\"trimmer\",\"stopWordFilter\",\"stemmer\"],\"ref\":\"id\",\"version\":\"0.9.5\"}"
["to_json_pretty"] -> "{\n  \"documentStore\": {\n    \"docInfo\": {\n      \"1\": {\n        \"body\": 1\n      }\n    },\n    \"docs\": {\n      \"1\": {\n        \"body\": \"blue\",\n        \"id\": \"1\"\n      }\n    },\n    \"length\": 1,\n    \"save\": true\n  },\n  \"fields\": [\n    \"body\"\n  ],\n  \"index\": {\n    \"body\": {\n      \"root\": {\n        \"b\": {\n          \"df\": 0,\n          \"docs\": {},\n          \"l\": {\n            \"df\": 0,\n            \"docs\": {},\n            \"u\": {\n              \"df\": 0,\n              \"docs\": {},\n              \"e\": {\n                \"df\": 1,\n                \"docs\": {\n                  \"1\": {\n                    \"tf\": 1000000\n                  }\n                }\n              }\n            }\n          }\n        },\n        \"df\": 0,\n        \"docs\": {},\n        \"r\": {\n          \"df\": 0,\n          \"docs\": {},\n          \"e\": {\n            \"d\": {\n              \"df\": 0,\n              \"docs\": {}\n            },\n            \"df\": 0,\n            \"docs\": {}\n          }\n        }\n      }\n    }\n  },\n  \"lang\": \"English\",\n  \"pipeline\": [\n    \"trimmer\",\n    \"stopWordFilter\",\n    \"stemmer\"\n  ],\n  \"ref\": \"id\",\n  \"version\": \"0.9.5\"\n}"

Index: a field that is left out goes
["Index::new","title","body"] -> done
["add_doc","1","cat","dog bird"] -> done
["add_doc","1","cow"] -> done
["has_token","body","dog"] -> true
["has_token","body","bird"] -> true
["get_docs","body","dog"] -> {}
["get_docs","body","bird"] -> {}
["to_value"] -> {"documentStore":{"docInfo":{"1":{"title":1}},"docs":{"1":{"id":"1","title":"cow"}},"length":1,"save":true},"fields":["title","body"],"index":{"body":{"root":{"b":{"df":0,"docs":{},"i":{"df":0,"docs":{},"r":{"d":{"df":0,"docs":{}},"df":0,"docs":{}}}},"d":{"df":0,"docs":{},"o":{"df":0,"docs":{},"g":{"df":0,"docs":{}}}},"df":0,"docs":{}}},"title":{"root":{"c":{"a":{"df":0,"docs":{},"t":{"df":0,"docs":{}}},"df":0,"docs":{},"o":{"df":0,"docs":{},"w":{"df":1,"docs":{"1":{"tf":1000000}}}}},"df":0,"docs":{}}}},"lang":"English","pipeline":["trimmer","stopWordFilter","stemmer"],"ref":"id","version":"0.9.5"}

Index: lists that agree print alike, the one
["Index::new","body"] -> done
["add_doc","1","red"] -> done
["add_doc","2","blue"] -> done
["add_doc","1","green"] -> done
["to_json"] -> "{\"documentStore\":{\"docInfo\":{\"1\":{\"body\":1},\"2\":{\"body\":1}},\"docs\":{\"1\":{\"body\":\"green\",\"id\":\"1\"},\"2\":{\"body\":\"blue\",\"id\":\"2\"}},\"length\":2,\"save\":true},\"fields\":[\"body\"],\"index\":{\"body\":{\"root\":{\"b\":{\"df\":0,\"docs\":{},\"l\":{\"df\":0,\"docs\":{},\"u\":{\"df\":0,\"docs\":{},\"e\":{\"df\":1,\"docs\":{\"2\":{\"tf\":1000000}}}}}},\"df\":0,\"docs\":{},\"g\":{\"df\":0,\"docs\":{},\"r\":{\"df\":0,\"docs\":{},\"e\":{\"df\":0,\"docs\":{},\"e\":{\"df\":0,\"docs\":{},\"n\":{\"df\":1,\"docs\":{\"1\":{\"tf\":1000000}}}}}}},\"r\":{\"df\":0,\"docs\":{},\"e\":{\"d\":{\"df\":0,\"docs\":{}},\"df\":0,\"docs\":{}}}}}},\"lang\":\"English\",\"pipeline\":[\"trimmer\",\"stopWordFilter\",\"stemmer\"],\"ref\":\"id\",\"version\":\"0.9.5\"}"

Index: lists that agree print alike, the other
["Index::new","body"] -> done
["add_doc","2","blue"] -> done
["add_doc","1","red"] -> done
["add_doc","1","green"] -> done
["to_json"] -> "{\"documentStore\":{\"docInfo\":{\"1\":{\"body\":1},\"2\":{\"body\":1}},\"docs\":{\"1\":{\"body\":\"green\",\"id\":\"1\"},\"2\":{\"body\":\"blue\",\"id\":\"2\"}},\"length\":2,\"save\":true},\"fields\":[\"body\"],\"index\":{\"body\":{\"root\":{\"b\":{\"df\":0,\"docs\":{},\"l\":{\"df\":0,\"docs\":{},\"u\":{\"df\":0,\"docs\":{},\"e\":{\"df\":1,\"docs\":{\"2\":{\"tf\":1000000}}}}}},\"df\":0,\"docs\":{},\"g\":{\"df\":0,\"docs\":{},\"r\":{\"df\":0,\"docs\":{},\"e\":{\"df\":0,\"docs\":{},\"e\":{\"df\":0,\"docs\":{},\"n\":{\"df\":1,\"docs\":{\"1\":{\"tf\":1000000}}}}}}},\"r\":{\"df\":0,\"docs\":{},\"e\":{\"d\":{\"df\":0,\"docs\":{}},\"df\":0,\"docs\":{}}}}}},\"lang\":\"English\",\"pipeline\":[\"trimmer\",\"stopWordFilter\",\"stemmer\"],\"ref\":\"id\",\"version\":\"0.9.5\"}"

Index: a list that does not agree
["Index::new","body"] -> done
["add_doc","1","green"] -> done
["add_doc","2","blue"] -> done
["add_doc","1","red"] -> done
["to_json"] -> "{\"documentStore\":{\"docInfo\":{\"1\":{\"body\":1},\"2\":{\"body\":1}},\"docs\":{\"1\":{\"body\":\"red\",\"id\":\"1\"},\"2\":{\"body\":\"blue\",\"id\":\"2\"}},\"length\":2,\"save\":true},\"fields\":[\"body\"],\"index\":{\"body\":{\"root\":{\"b\":{\"df\":0,\"docs\":{},\"l\":{\"df\":0,\"docs\":{},\"u\":{\"df\":0,\"docs\":{},\"e\":{\"df\":1,\"docs\":{\"2\":{\"tf\":1000000}}}}}},\"df\":0,\"docs\":{},\"g\":{\"df\":0,\"docs\":{},\"r\":{\"df\":0,\"docs\":{},\"e\":{\"df\":0,\"docs\":{},\"e\":{\"df\":0,\"docs\":{},\"n\":{\"df\":0,\"docs\":{}}}}}},\"r\":{\"df\":0,\"docs\":{},\"e\":{\"d\":{\"df\":1,\"docs\":{\"1\":{\"tf\":1000000}}},\"df\":0,\"docs\":{}}}}}},\"lang\":\"English\",\"pipeline\":[\"trimmer\",\"stopWordFilter\",\"stemmer\"],\"ref\":\"id\",\"version\":\"0.9.5\"}"

Index: names are counted
["Index::new","title","body","title"] -> refused: duplicate field
["Index::new","title"] -> done

Index: values are counted
["Index::new","body"] -> done
["to_value"] -> {"documentStore":{"docInfo":{},"docs":{},"length":0,"save":true},"fields":["body"],"index":{"body":{"root":{"df":0,"docs":{}}}},"lang":"English","pipeline":["trimmer","stopWordFilter","stemmer"],"ref":"id","version":"0.9.5"}
["add_doc","1","a","b"] -> refused: too many values
["to_value"] -> {"documentStore":{"docInfo":{},"docs":{},"length":0,"save":true},"fields":["body"],"index":{"body":{"root":{"df":0,"docs":{}}}},"lang":"English","pipeline":["trimmer","stopWordFilter","stemmer"],"ref":"id","version":"0.9.5"}
["to_json"] -> "{\"documentStore\":{\"docInfo\":{},\"docs\":{},\"length\":0,\"save\":true},\"fields\":[\"body\"],\"index\":{\"body\":{\"root\":{\"df\":0,\"docs\":{}}}},\"lang\":\"English\",\"pipeline\":[\"trimmer\",\"stopWordFilter\",\"stemmer\"],\"ref\":\"id\",\"version\":\"0.9.5\"}"
["to_json_pretty"] -> "{\n  \"documentStore\": {\n    \"docInfo\": {},\n    \"docs\": {},\n    \"length\": 0,\n    \"save\": true\n  },\n  \"fields\": [\n    \"body\"\n  ],\n  \"index\": {\n    \"body\": {\n      \"root\": {\n        \"df\": 0,\n        \"docs\": {}\n      }\n    }\n  },\n  \"lang\": \"English\",\n  \"pipeline\": [\n    \"trimmer\",\n    \"stopWordFilter\",\n    \"stemmer\"\n  ],\n  \"ref\": \"id\",\n  \"version\": \"0.9.5\"\n}"

Index: too many values after an accepted document
["Index::new","a","b"] -> done
["add_doc","1","x"] -> done
["to_json"] -> "{\"documentStore\":{\"docInfo\":{\"1\":{\"a\":1}},\"docs\":{\"1\":{\"a\":\"x\",\"id\":\"1\"}},\"length\":1,\"save\":true},\"fields\":[\"a\",\"b\"],\"index\":{\"a\":{\"root\":{\"df\":0,\"docs\":{},\"x\":{\"df\":1,\"docs\":{\"1\":{\"tf\":1000000}}}}},\"b\":{\"root\":{\"df\":0,\"docs\":{}}}},\"lang\":\"English\",\"pipeline\":[\"trimmer\",\"stopWordFilter\",\"stemmer\"],\"ref\":\"id\",\"version\":\"0.9.5\"}"
["add_doc","1","p","q","r"] -> refused: too many values
["to_value"] -> {"documentStore":{"docInfo":{"1":{"a":1}},"docs":{"1":{"a":"x","id":"1"}},"length":1,"save":true},"fields":["a","b"],"index":{"a":{"root":{"df":0,"docs":{},"x":{"df":1,"docs":{"1":{"tf":1000000}}}}},"b":{"root":{"df":0,"docs":{}}}},"lang":"English","pipeline":["trimmer","stopWordFilter","stemmer"],"ref":"id","version":"0.9.5"}
["to_json"] -> "{\"documentStore\":{\"docInfo\":{\"1\":{\"a\":1}},\"docs\":{\"1\":{\"a\":\"x\",\"id\":\"1\"}},\"length\":1,\"save\":true},\"fields\":[\"a\",\"b\"],\"index\":{\"a\":{\"root\":{\"df\":0,\"docs\":{},\"x\":{\"df\":1,\"docs\":{\"1\":{\"tf\":1000000}}}}},\"b\":{\"root\":{\"df\":0,\"docs\":{}}}},\"lang\":\"English\",\"pipeline\":[\"trimmer\",\"stopWordFilter\",\"stemmer\"],\"ref\":\"id\",\"version\":\"0.9.5\"}"
["to_json_pretty"] -> "{\n  \"documentStore\": {\n    \"docInfo\": {\n      \"1\": {\n        \"a\": 1\n      }\n    },\n    \"docs\": {\n      \"1\": {\n        \"a\": \"x\",\n        \"id\": \"1\"\n      }\n    },\n    \"length\": 1,\n    \"save\": true\n  },\n  \"fields\": [\n    \"a\",\n    \"b\"\n  ],\n  \"index\": {\n    \"a\": {\n      \"root\": {\n        \"df\": 0,\n        \"docs\": {},\n        \"x\": {\n          \"df\": 1,\n          \"docs\": {\n            \"1\": {\n              \"tf\": 1000000\n            }\n          }\n        }\n      }\n    },\n    \"b\": {\n      \"root\": {\n        \"df\": 0,\n        \"docs\": {}\n      }\n    }\n  },\n  \"lang\": \"English\",\n  \"pipeline\": [\n    \"trimmer\",\n    \"stopWordFilter\",\n    \"stemmer\"\n  ],\n  \"ref\": \"id\",\n  \"version\": \"0.9.5\"\n}"

Index: an index without fields takes documents without values
["Index::new"] -> done
["add_doc","1"] -> done
["add_doc","1","x"] -> refused: too many values
["to_value"] -> {"documentStore":{"docInfo":{},"docs":{"1":{"id":"1"}},"length":1,"save":true},"fields":[],"index":{},"lang":"English","pipeline":["trimmer","stopWordFilter","stemmer"],"ref":"id","version":"0.9.5"}
["get_fields"] -> true

Index: a field may hold the reference
["Index::new","id","body"] -> done
["add_doc","1","a7","go"] -> done
["has_token","id","a"] -> false
["to_value"] -> {"documentStore":{"docInfo":{"1":{"body":1}},"docs":{"1":{"body":"go","id":"a7"}},"length":1,"save":true},"fields":["id","body"],"index":{"body":{"root":{"df":0,"docs":{},"g":{"df":0,"docs":{},"o":{"df":1,"docs":{"1":{"tf":1000000}}}}}},"id":{"root":{"df":0,"docs":{}}}},"lang":"English","pipeline":["trimmer","stopWordFilter","stemmer"],"ref":"id","version":"0.9.5"}
["to_json"] -> "{\"documentStore\":{\"docInfo\":{\"1\":{\"body\":1}},\"docs\":{\"1\":{\"body\":\"go\",\"id\":\"a7\"}},\"length\":1,\"save\":true},\"fields\":[\"id\",\"body\"],\"index\":{\"body\":{\"root\":{\"df\":0,\"docs\":{},\"g\":{\"df\":0,\"docs\":{},\"o\":{\"df\":1,\"docs\":{\"1\":{\"tf\":1000000}}}}}},\"id\":{\"root\":{\"df\":0,\"docs\":{}}}},\"lang\":\"English\",\"pipeline\":[\"trimmer\",\"stopWordFilter\",\"stemmer\"],\"ref\":\"id\",\"version\":\"0.9.5\"}"
["to_json_pretty"] -> "{\n  \"documentStore\": {\n    \"docInfo\": {\n      \"1\": {\n        \"body\": 1\n      }\n    },\n    \"docs\": {\n      \"1\": {\n        \"body\": \"go\",\n        \"id\": \"a7\"\n      }\n    },\n    \"length\": 1,\n    \"save\": true\n  },\n  \"fields\": [\n    \"id\",\n    \"body\"\n  ],\n  \"index\": {\n    \"body\": {\n      \"root\": {\n        \"df\": 0,\n        \"docs\": {},\n        \"g\": {\n          \"df\": 0,\n          \"docs\": {},\n          \"o\": {\n            \"df\": 1,\n            \"docs\": {\n              \"1\": {\n                \"tf\": 1000000\n              }\n            }\n          }\n        }\n      }\n    },\n    \"id\": {\n      \"root\": {\n        \"df\": 0,\n        \"docs\": {}\n      }\n    }\n  },\n  \"lang\": \"English\",\n  \"pipeline\": [\n    \"trimmer\",\n    \"stopWordFilter\",\n    \"stemmer\"\n  ],\n  \"ref\": \"id\",\n  \"version\": \"0.9.5\"\n}"

Index: frequencies are roots
["Index::new","body"] -> done
["add_doc","1","fox dog dog cat cat cat hen hen hen hen"] -> done
["get_term_frequency","body","1","fox"] -> 1000000
["get_term_frequency","body","1","dog"] -> 1414213
["get_term_frequency","body","1","cat"] -> 1732050
["get_term_frequency","body","1","hen"] -> 2000000
["to_value"] -> {"documentStore":{"docInfo":{"1":{"body":10}},"docs":{"1":{"body":"fox dog dog cat cat cat hen hen hen hen","id":"1"}},"length":1,"save":true},"fields":["body"],"index":{"body":{"root":{"c":{"a":{"df":0,"docs":{},"t":{"df":1,"docs":{"1":{"tf":1732050}}}},"df":0,"docs":{}},"d":{"df":0,"docs":{},"o":{"df":0,"docs":{},"g":{"df":1,"docs":{"1":{"tf":1414213}}}}},"df":0,"docs":{},"f":{"df":0,"docs":{},"o":{"df":0,"docs":{},"x":{"df":1,"docs":{"1":{"tf":1000000}}}}},"h":{"df":0,"docs":{},"e":{"df":0,"docs":{},"n":{"df":1,"docs":{"1":{"tf":2000000}}}}}}}},"lang":"English","pipeline":["trimmer","stopWordFilter","stemmer"],"ref":"id","version":"0.9.5"}

Index: a removed document leaves its paths until a compaction
["Index::new","body"] -> done
["add_doc","1","red"] -> done
["to_json"] -> "{\"documentStore\":{\"docInfo\":{\"1\":{\"body\":1}},\"docs\":{\"1\":{\"body\":\"red\",\"id\":\"1\"}},\"length\":1,\"save\":true},\"fields\":[\"body\"],\"index\":{\"body\":{\"root\":{\"df\":0,\"docs\":{},\"r\":{\"df\":0,\"docs\":{},\"e\":{\"d\":{\"df\":1,\"docs\":{\"1\":{\"tf\":1000000}}},\"df\":0,\"docs\":{}}}}}},\"lang\":\"English\",\"pipeline\":[\"trimmer\",\"stopWordFilter\",\"stemmer\"],\"ref\":\"id\",\"version\":\"0.9.5\"}"
["remove_doc","9"] -> done
["to_json"] -> "{\"documentStore\":{\"docInfo\":{\"1\":{\"body\":1}},\"docs\":{\"1\":{\"body\":\"red\",\"id\":\"1\"}},\"length\":1,\"save\":true},\"fields\":[\"body\"],\"index\":{\"body\":{\"root\":{\"df\":0,\"docs\":{},\"r\":{\"df\":0,\"docs\":{},\"e\":{\"d\":{\"df\":1,\"docs\":{\"1\":{\"tf\":1000000}}},\"df\":0,\"docs\":{}}}}}},\"lang\":\"English\",\"pipeline\":[\"trimmer\",\"stopWordFilter\",\"stemmer\"],\"ref\":\"id\",\"version\":\"0.9.5\"}"
["remove_doc","1"] -> done
["has_token","body","red"] -> true
["get_docs","body","red"] -> {}
["document_store"] -> 0
["to_value"] -> {"documentStore":{"docInfo":{},"docs":{},"length":0,"save":true},"fields":["body"],"index":{"body":{"root":{"df":0,"docs":{},"r":{"df":0,"docs":{},"e":{"d":{"df":0,"docs":{}},"df":0,"docs":{}}}}}},"lang":"English","pipeline":["trimmer","stopWordFilter","stemmer"],"ref":"id","version":"0.9.5"}
["to_json"] -> "{\"documentStore\":{\"docInfo\":{},\"docs\":{},\"length\":0,\"save\":true},\"fields\":[\"body\"],\"index\":{\"body\":{\"root\":{\"df\":0,\"docs\":{},\"r\":{\"df\":0,\"docs\":{},\"e\":{\"d\":{\"df\":0,\"docs\":{}},\"df\":0,\"docs\":{}}}}}},\"lang\":\"English\",\"pipeline\":[\"trimmer\",\"stopWordFilter\",\"stemmer\"],\"ref\":\"id\",\"version\":\"0.9.5\"}"
["to_json_pretty"] -> "{\n  \"documentStore\": {\n    \"docInfo\": {},\n    \"docs\": {},\n    \"length\": 0,\n    \"save\": true\n  },\n  \"fields\": [\n    \"body\"\n  ],\n  \"index\": {\n    \"body\": {\n      \"root\": {\n        \"df\": 0,\n        \"docs\": {},\n        \"r\": {\n          \"df\": 0,\n          \"docs\": {},\n          \"e\": {\n            \"d\": {\n              \"df\": 0,\n              \"docs\": {}\n            },\n            \"df\": 0,\n            \"docs\": {}\n          }\n        }\n      }\n    }\n  },\n  \"lang\": \"English\",\n  \"pipeline\": [\n    \"trimmer\",\n    \"stopWordFilter\",\n    \"stemmer\"\n  ],\n  \"ref\": \"id\",\n  \"version\": \"0.9.5\"\n}"
["compact"] -> done
["has_token","body","r"] -> false
["to_value"] -> {"documentStore":{"docInfo":{},"docs":{},"length":0,"save":true},"fields":["body"],"index":{"body":{"root":{"df":0,"docs":{}}}},"lang":"English","pipeline":["trimmer","stopWordFilter","stemmer"],"ref":"id","version":"0.9.5"}
["to_json"] -> "{\"documentStore\":{\"docInfo\":{},\"docs\":{},\"length\":0,\"save\":true},\"fields\":[\"body\"],\"index\":{\"body\":{\"root\":{\"df\":0,\"docs\":{}}}},\"lang\":\"English\",\"pipeline\":[\"trimmer\",\"stopWordFilter\",\"stemmer\"],\"ref\":\"id\",\"version\":\"0.9.5\"}"
["to_json_pretty"] -> "{\n  \"documentStore\": {\n    \"docInfo\": {},\n    \"docs\": {},\n    \"length\": 0,\n    \"save\": true\n  },\n  \"fields\": [\n    \"body\"\n  ],\n  \"index\": {\n    \"body\": {\n      \"root\": {\n        \"df\": 0,\n        \"docs\": {}\n      }\n    }\n  },\n  \"lang\": \"English\",\n  \"pipeline\": [\n    \"trimmer\",\n    \"stopWordFilter\",\n    \"stemmer\"\n  ],\n  \"ref\": \"id\",\n  \"version\": \"0.9.5\"\n}"

Index: a new reference
["Index::new","body"] -> done
["add_doc","1","red red"] -> done
["add_doc","2","the red fox"] -> done
["to_value"] -> {"documentStore":{"docInfo":{"1":{"body":2},"2":{"body":2}},"docs":{"1":{"body":"red red","id":"1"},"2":{"body":"the red fox","id":"2"}},"length":2,"save":true},"fields":["body"],"index":{"body":{"root":{"df":0,"docs":{},"f":{"df":0,"docs":{},"o":{"df":0,"docs":{},"x":{"df":1,"docs":{"2":{"tf":1000000}}}}},"r":{"df":0,"docs":{},"e":{"d":{"df":2,"docs":{"1":{"tf":1414213},"2":{"tf":1000000}}},"df":0,"docs":{}}}}}},"lang":"English","pipeline":["trimmer","stopWordFilter","stemmer"],"ref":"id","version":"0.9.5"}
["to_json"] -> "{\"documentStore\":{\"docInfo\":{\"1\":{\"body\":2},\"2\":{\"body\":2}},\"docs\":{\"1\":{\"body\":\"red red\",\"id\":\"1\"},\"2\":{\"body\":\"the red fox\",\"id\":\"2\"}},\"length\":2,\"save\":true},\"fields\":[\"body\"],\"index\":{\"body\":{\"root\":{\"df\":0,\"docs\":{},\"f\":{\"df\":0,\"docs\":{},\"o\":{\"df\":0,\"docs\":{},\"x\":{\"df\":1,\"docs\":{\"2\":{\"tf\":1000000}}}}},\"r\":{\"df\":0,\"docs\":{},\"e\":{\"d\":{\"df\":2,\"docs\":{\"1\":{\"tf\":1414213},\"2\":{\"tf\":1000000}}},\"df\":0,\"docs\":{}}}}}},\"lang\":\"English\",\"pipeline\":[\"trimmer\",\"stopWordFilter\",\"stemmer\"],\"ref\":\"id\",\"version\":\"0.9.5\"}"
["to_json_pretty"] -> "{\n  \"documentStore\": {\n    \"docInfo\": {\n      \"1\": {\n        \"body\": 2\n      },\n      \"2\": {\n        \"body\": 2\n      }\n    },\n    \"docs\": {\n      \"1\": {\n        \"body\": \"red red\",\n        \"id\": \"1\"\n      },\n      \"2\": {\n        \"body\": \"the red fox\",\n        \"id\": \"2\"\n      }\n    },\n    \"length\": 2,\n    \"save\": true\n  },\n  \"fields\": [\n    \"body\"\n  ],\n  \"index\": {\n    \"body\": {\n      \"root\": {\n        \"df\": 0,\n        \"docs\": {},\n        \"f\": {\n          \"df\": 0,\n          \"docs\": {},\n          \"o\": {\n            \"df\": 0,\n            \"docs\": {},\n            \"x\": {\n              \"df\": 1,\n              \"docs\": {\n                \"2\": {\n                  \"tf\": 1000000\n                }\n              }\n            }\n          }\n        },\n        \"r\": {\n          \"df\": 0,\n          \"docs\": {},\n          \"e\": {\n            \"d\": {\n              \"df\": 2,\n              \"docs\": {\n                \"1\": {\n                  \"tf\": 1414213\n                },\n                \"2\": {\n                  \"tf\": 1000000\n                }\n              }\n            },\n            \"df\": 0,\n            \"docs\": {}\n          }\n        }\n      }\n    }\n  },\n  \"lang\": \"English\",\n  \"pipeline\": [\n    \"trimmer\",\n    \"stopWordFilter\",\n    \"stemmer\"\n  ],\n  \"ref\": \"id\",\n  \"version\": \"0.9.5\"\n}"

Index: two fields are compacted
["Index::new","title","body"] -> done
["add_doc","1","red","red fox"] -> done
["add_doc","2","rest","fox"] -> done
["remove_doc","1"] -> done
["to_value"] -> {"documentStore":{"docInfo":{"2":{"body":1,"title":1}},"docs":{"2":{"body":"fox","id":"2","title":"rest"}},"length":1,"save":true},"fields":["title","body"],"index":{"body":{"root":{"df":0,"docs":{},"f":{"df":0,"docs":{},"o":{"df":0,"docs":{},"x":{"df":1,"docs":{"2":{"tf":1000000}}}}},"r":{"df":0,"docs":{},"e":{"d":{"df":0,"docs":{}},"df":0,"docs":{}}}}},"title":{"root":{"df":0,"docs":{},"r":{"df":0,"docs":{},"e":{"d":{"df":0,"docs":{}},"df":0,"docs":{},"s":{"df":0,"docs":{},"t":{"df":1,"docs":{"2":{"tf":1000000}}}}}}}}},"lang":"English","pipeline":["trimmer","stopWordFilter","stemmer"],"ref":"id","version":"0.9.5"}
["compact"] -> done
["to_value"] -> {"documentStore":{"docInfo":{"2":{"body":1,"title":1}},"docs":{"2":{"body":"fox","id":"2","title":"rest"}},"length":1,"save":true},"fields":["title","body"],"index":{"body":{"root":{"df":0,"docs":{},"f":{"df":0,"docs":{},"o":{"df":0,"docs":{},"x":{"df":1,"docs":{"2":{"tf":1000000}}}}}}},"title":{"root":{"df":0,"docs":{},"r":{"df":0,"docs":{},"e":{"df":0,"docs":{},"s":{"df":0,"docs":{},"t":{"df":1,"docs":{"2":{"tf":1000000}}}}}}}}},"lang":"English","pipeline":["trimmer","stopWordFilter","stemmer"],"ref":"id","version":"0.9.5"}
["to_json"] -> "{\"documentStore\":{\"docInfo\":{\"2\":{\"body\":1,\"title\":1}},\"docs\":{\"2\":{\"body\":\"fox\",\"id\":\"2\",\"title\":\"rest\"}},\"length\":1,\"save\":true},\"fields\":[\"title\",\"body\"],\"index\":{\"body\":{\"root\":{\"df\":0,\"docs\":{},\"f\":{\"df\":0,\"docs\":{},\"o\":{\"df\":0,\"docs\":{},\"x\":{\"df\":1,\"docs\":{\"2\":{\"tf\":1000000}}}}}}},\"title\":{\"root\":{\"df\":0,\"docs\":{},\"r\":{\"df\":0,\"docs\":{},\"e\":{\"df\":0,\"docs\":{},\"s\":{\"df\":0,\"docs\":{},\"t\":{\"df\":1,\"docs\":{\"2\":{\"tf\":1000000}}}}}}}}},\"lang\":\"English\",\"pipeline\":[\"trimmer\",\"stopWordFilter\",\"stemmer\"],\"ref\":\"id\",\"version\":\"0.9.5\"}"
["to_json_pretty"] -> "{\n  \"documentStore\": {\n    \"docInfo\": {\n      \"2\": {\n        \"body\": 1,\n        \"title\": 1\n      }\n    },\n    \"docs\": {\n      \"2\": {\n        \"body\": \"fox\",\n        \"id\": \"2\",\n        \"title\": \"rest\"\n      }\n    },\n    \"length\": 1,\n    \"save\": true\n  },\n  \"fields\": [\n    \"title\",\n    \"body\"\n  ],\n  \"index\": {\n    \"body\": {\n      \"root\": {\n        \"df\": 0,\n        \"docs\": {},\n        \"f\": {\n          \"df\": 0,\n          \"docs\": {},\n          \"o\": {\n            \"df\": 0,\n            \"docs\": {},\n            \"x\": {\n              \"df\": 1,\n              \"docs\": {\n                \"2\": {\n                  \"tf\": 1000000\n                }\n              }\n            }\n          }\n        }\n      }\n    },\n    \"title\": {\n      \"root\": {\n        \"df\": 0,\n        \"docs\": {},\n        \"r\": {\n          \"df\": 0,\n          \"docs\": {},\n          \"e\": {\n            \"df\": 0,\n            \"docs\": {},\n            \"s\": {\n              \"df\": 0,\n              \"docs\": {},\n              \"t\": {\n                \"df\": 1,\n                \"docs\": {\n                  \"2\": {\n                    \"tf\": 1000000\n                  }\n                }\n              }\n            }\n          }\n        }\n      }\n    }\n  },\n  \"lang\": \"English\",\n  \"pipeline\": [\n    \"trimmer\",\n    \"stopWordFilter\",\n    \"stemmer\"\n  ],\n  \"ref\": \"id\",\n  \"version\": \"0.9.5\"\n}"

Index: six fields are compacted, after one of many is removed
["Index::new","f1","f2","f3","f4","f5","f6"] -> done
["add_doc","1","red","red","red","red","red","red"] -> done
["add_doc","2","fox","fox","fox"] -> done
["add_doc","3","red","red","fox","red","red","red"] -> done
["to_value"] -> {"documentStore":{"docInfo":{"1":{"f1":1,"f2":1,"f3":1,"f4":1,"f5":1,"f6":1},"2":{"f1":1,"f2":1,"f3":1},"3":{"f1":1,"f2":1,"f3":1,"f4":1,"f5":1,"f6":1}},"docs":{"1":{"f1":"red","f2":"red","f3":"red","f4":"red","f5":"red","f6":"red","id":"1"},"2":{"f1":"fox","f2":"fox","f3":"fox","id":"2"},"3":{"f1":"red","f2":"red","f3":"fox","f4":"red","f5":"red","f6":"red","id":"3"}},"length":3,"save":true},"fields":["f1","f2","f3","f4","f5","f6"],"index":{"f1":{"root":{"df":0,"docs":{},"f":{"df":0,"docs":{},"o":{"df":0,"docs":{},"x":{"df":1,"docs":{"2":{"tf":1000000}}}}},"r":{"df":0,"docs":{},"e":{"d":{"df":2,"docs":{"1":{"tf":1000000},"3":{"tf":1000000}}},"df":0,"docs":{}}}}},"f2":{"root":{"df":0,"docs":{},"f":{"df":0,"docs":{},"o":{"df":0,"docs":{},"x":{"df":1,"docs":{"2":{"tf":1000000}}}}},"r":{"df":0,"docs":{},"e":{"d":{"df":2,"docs":{"1":{"tf":1000000},"3":{"tf":1000000}}},"df":0,"docs":{}}}}},"f3":{"root":{"df":0,"docs":{},"f":{"df":0,"docs":{},"o":{"df":0,"docs":{},"x":{"df":2,"docs":{"2":{"tf":1000000},"3":{"tf":1000000}}}}},"r":{"df":0,"docs":{},"e":{"d":{"df":1,"docs":{"1":{"tf":1000000}}},"df":0,"docs":{}}}}},"f4":{"root":{"df":0,"docs":{},"r":{"df":0,"docs":{},"e":{"d":{"df":2,"docs":{"1":{"tf":1000000},"3":{"tf":1000000}}},"df":0,"docs":{}}}}},"f5":{"root":{"df":0,"docs":{},"r":{"df":0,"docs":{},"e":{"d":{"df":2,"docs":{"1":{"tf":1000000},"3":{"tf":1000000}}},"df":0,"docs":{}}}}},"f6":{"root":{"df":0,"docs":{},"r":{"df":0,"docs":{},"e":{"d":{"df":2,"docs":{"1":{"tf":1000000},"3":{"tf":1000000}}},"df":0,"docs":{}}}}}},"lang":"English","pipeline":["trimmer","stopWordFilter","stemmer"],"ref":"id","version":"0.9.5"}
["remove_doc","1"] -> done
["to_value"] -> {"documentStore":{"docInfo":{"2":{"f1":1,"f2":1,"f3":1},"3":{"f1":1,"f2":1,"f3":1,"f4":1,"f5":1,"f6":1}},"docs":{"2":{"f1":"fox","f2":"fox","f3":"fox","id":"2"},"3":{"f1":"red","f2":"red","f3":"fox","f4":"red","f5":"red","f6":"red","id":"3"}},"length":2,"save":true},"fields":["f1","f2","f3","f4","f5","f6"],"index":{"f1":{"root":{"df":0,"docs":{},"f":{"df":0,"docs":{},"o":{"df":0,"docs":{},"x":{"df":1,"docs":{"2":{"tf":1000000}}}}},"r":{"df":0,"docs":{},"e":{"d":{"df":1,"docs":{"3":{"tf":1000000}}},"df":0,"docs":{}}}}},"f2":{"root":{"df":0,"docs":{},"f":{"df":0,"docs":{},"o":{"df":0,"docs":{},"x":{"df":1,"docs":{"2":{"tf":1000000}}}}},"r":{"df":0,"docs":{},"e":{"d":{"df":1,"docs":{"3":{"tf":1000000}}},"df":0,"docs":{}}}}},"f3":{"root":{"df":0,"docs":{},"f":{"df":0,"docs":{},"o":{"df":0,"docs":{},"x":{"df":2,"docs":{"2":{"tf":1000000},"3":{"tf":1000000}}}}},"r":{"df":0,"docs":{},"e":{"d":{"df":0,"docs":{}},"df":0,"docs":{}}}}},"f4":{"root":{"df":0,"docs":{},"r":{"df":0,"docs":{},"e":{"d":{"df":1,"docs":{"3":{"tf":1000000}}},"df":0,"docs":{}}}}},"f5":{"root":{"df":0,"docs":{},"r":{"df":0,"docs":{},"e":{"d":{"df":1,"docs":{"3":{"tf":1000000}}},"df":0,"docs":{}}}}},"f6":{"root":{"df":0,"docs":{},"r":{"df":0,"docs":{},"e":{"d":{"df":1,"docs":{"3":{"tf":1000000}}},"df":0,"docs":{}}}}}},"lang":"English","pipeline":["trimmer","stopWordFilter","stemmer"],"ref":"id","version":"0.9.5"}
["compact"] -> done
["to_value"] -> {"documentStore":{"docInfo":{"2":{"f1":1,"f2":1,"f3":1},"3":{"f1":1,"f2":1,"f3":1,"f4":1,"f5":1,"f6":1}},"docs":{"2":{"f1":"fox","f2":"fox","f3":"fox","id":"2"},"3":{"f1":"red","f2":"red","f3":"fox","f4":"red","f5":"red","f6":"red","id":"3"}},"length":2,"save":true},"fields":["f1","f2","f3","f4","f5","f6"],"index":{"f1":{"root":{"df":0,"docs":{},"f":{"df":0,"docs":{},"o":{"df":0,"docs":{},"x":{"df":1,"docs":{"2":{"tf":1000000}}}}},"r":{"df":0,"docs":{},"e":{"d":{"df":1,"docs":{"3":{"tf":1000000}}},"df":0,"docs":{}}}}},"f2":{"root":{"df":0,"docs":{},"f":{"df":0,"docs":{},"o":{"df":0,"docs":{},"x":{"df":1,"docs":{"2":{"tf":1000000}}}}},"r":{"df":0,"docs":{},"e":{"d":{"df":1,"docs":{"3":{"tf":1000000}}},"df":0,"docs":{}}}}},"f3":{"root":{"df":0,"docs":{},"f":{"df":0,"docs":{},"o":{"df":0,"docs":{},"x":{"df":2,"docs":{"2":{"tf":1000000},"3":{"tf":1000000}}}}}}},"f4":{"root":{"df":0,"docs":{},"r":{"df":0,"docs":{},"e":{"d":{"df":1,"docs":{"3":{"tf":1000000}}},"df":0,"docs":{}}}}},"f5":{"root":{"df":0,"docs":{},"r":{"df":0,"docs":{},"e":{"d":{"df":1,"docs":{"3":{"tf":1000000}}},"df":0,"docs":{}}}}},"f6":{"root":{"df":0,"docs":{},"r":{"df":0,"docs":{},"e":{"d":{"df":1,"docs":{"3":{"tf":1000000}}},"df":0,"docs":{}}}}}},"lang":"English","pipeline":["trimmer","stopWordFilter","stemmer"],"ref":"id","version":"0.9.5"}
["to_json"] -> "{\"documentStore\":{\"docInfo\":{\"2\":{\"f1\":1,\"f2\":1,\"f3\":1},\"3\":{\"f1\":1,\"f2\":1,\"f3\":1,\"f4\":1,\"f5\":1,\"f6\":1}},\"docs\":{\"2\":{\"f1\":\"fox\",\"f2\":\"fox\",\"f3\":\"fox\",\"id\":\"2\"},\"3\":{\"f1\":\"red\",\"f2\":\"red\",\"f3\":\"fox\",\"f4\":\"red\",\"f5\":\"red\",\"f6\":\"red\",\"id\":\"3\"}},\"length\":2,\"save\":true},\"fields\":[\"f1\",\"f2\",\"f3\",\"f4\",\"f5\",\"f6\"],\"index\":{\"f1\":{\"root\":{\"df\":0,\"docs\":{},\"f\":{\"df\":0,\"docs\":{},\"o\":{\"df\":0,\"docs\":{},\"x\":{\"df\":1,\"docs\":{\"2\":{\"tf\":1000000}}}}},\"r\":{\"df\":0,\"docs\":{},\"e\":{\"d\":{\"df\":1,\"docs\":{\"3\":{\"tf\":1000000}}},\"df\":0,\"docs\":{}}}}},\"f2\":{\"root\":{\"df\":0,\"docs\":{},\"f\":{\"df\":0,\"docs\":{},\"o\":{\"df\":0,\"docs\":{},\"x\":{\"df\":1,\"docs\":{\"2\":{\"tf\":1000000}}}}},\"r\":{\"df\":0,\"docs\":{},\"e\":{\"d\":{\"df\":1,\"docs\":{\"3\":{\"tf\":1000000}}},\"df\":0,\"docs\":{}}}}},\"f3\":{\"root\":{\"df\":0,\"docs\":{},\"f\":{\"df\":0,\"docs\":{},\"o\":{\"df\":0,\"docs\":{},\"x\":{\"df\":2,\"docs\":{\"2\":{\"tf\":1000000},\"3\":{\"tf\":1000000}}}}}}},\"f4\":{\"root\":{\"df\":0,\"docs\":{},\"r\":{\"df\":0,\"docs\":{},\"e\":{\"d\":{\"df\":1,\"docs\":{\"3\":{\"tf\":1000000}}},\"df\":0,\"docs\":{}}}}},\"f5\":{\"root\":{\"df\":0,\"docs\":{},\"r\":{\"df\":0,\"docs\":{},\"e\":{\"d\":{\"df\":1,\"docs\":{\"3\":{\"tf\":1000000}}},\"df\":0,\"docs\":{}}}}},\"f6\":{\"root\":{\"df\":0,\"docs\":{},\"r\":{\"df\":0,\"docs\":{},\"e\":{\"d\":{\"df\":1,\"docs\":{\"3\":{\"tf\":1000000}}},\"df\":0,\"docs\":{}}}}}},\"lang\":\"English\",\"pipeline\":[\"trimmer\",\"stopWordFilter\",\"stemmer\"],\"ref\":\"id\",\"version\":\"0.9.5\"}"
["to_json_pretty"] -> "{\n  \"documentStore\": {\n    \"docInfo\": {\n      \"2\": {\n        \"f1\": 1,\n        \"f2\": 1,\n        \"f3\": 1\n      },\n      \"3\": {\n        \"f1\": 1,\n        \"f2\": 1,\n        \"f3\": 1,\n        \"f4\": 1,\n        \"f5\": 1,\n        \"f6\": 1\n      }\n    },\n    \"docs\": {\n      \"2\": {\n        \"f1\": \"fox\",\n        \"f2\": \"fox\",\n        \"f3\": \"fox\",\n        \"id\": \"2\"\n      },\n      \"3\": {\n        \"f1\": \"red\",\n        \"f2\": \"red\",\n        \"f3\": \"fox\",\n        \"f4\": \"red\",\n        \"f5\": \"red\",\n        \"f6\": \"red\",\n        \"id\": \"3\"\n      }\n    },\n    \"length\": 2,\n    \"save\": true\n  },\n  \"fields\": [\n    \"f1\",\n    \"f2\",\n    \"f3\",\n    \"f4\",\n    \"f5\",\n    \"f6\"\n  ],\n  \"index\": {\n    \"f1\": {\n      \"root\": {\n        \"df\": 0,\n        \"docs\": {},\n        \"f\": {\n          \"df\": 0,\n          \"docs\": {},\n          \"o\": {\n            \"df\": 0,\n            \"docs\": {},\n            \"x\": {\n              \"df\": 1,\n              \"docs\": {\n                \"2\": {\n                  \"tf\": 1000000\n                }\n              }\n            }\n          }\n        },\n        \"r\": {\n          \"df\": 0,\n          \"docs\": {},\n          \"e\": {\n            \"d\": {\n              \"df\": 1,\n              \"docs\": {\n                \"3\": {\n                  \"tf\": 1000000\n                }\n              }\n            },\n            \"df\": 0,\n            \"docs\": {}\n          }\n        }\n      }\n    },\n    \"f2\": {\n      \"root\": {\n        \"df\": 0,\n        \"docs\": {},\n        \"f\": {\n          \"df\": 0,\n          \"docs\": {},\n          \"o\": {\n            \"df\": 0,\n            \"docs\": {},\n            \"x\": {\n              \"df\": 1,\n              \"docs\": {\n                \"2\": {\n                  \"tf\": 1000000\n                }\n              }\n            }\n          }\n        },\n        \"r\": {\n          \"df\": 0,\n          \"docs\": {},\n          \"e\": {\n            \"d\": {\n              \"df\": 1,\n              \"docs\": {\n                \"3\": {\n                  \"tf\": 1000000\n                }\n              }\n            },\n            \"df\": 0,\n            \"docs\": {}\n          }\n        }\n      }\n    },\n    \"f3\": {\n      \"root\": {\n        \"df\": 0,\n        \"docs\": {},\n        \"f\": {\n          \"df\": 0,\n          \"docs\": {},\n          \"o\": {\n            \"df\": 0,\n            \"docs\": {},\n            \"x\": {\n              \"df\": 2,\n              \"docs\": {\n                \"2\": {\n                  \"tf\": 1000000\n                },\n                \"3\": {\n                  \"tf\": 1000000\n                }\n              }\n            }\n          }\n        }\n      }\n    },\n    \"f4\": {\n      \"root\": {\n        \"df\": 0,\n        \"docs\": {},\n        \"r\": {\n          \"df\": 0,\n          \"docs\": {},\n          \"e\": {\n            \"d\": {\n              \"df\": 1,\n              \"docs\": {\n                \"3\": {\n                  \"tf\": 1000000\n                }\n              }\n            },\n            \"df\": 0,\n            \"docs\": {}\n          }\n        }\n      }\n    },\n    \"f5\": {\n      \"root\": {\n        \"df\": 0,\n        \"docs\": {},\n        \"r\": {\n          \"df\": 0,\n          \"docs\": {},\n          \"e\": {\n            \"d\": {\n              \"df\": 1,\n              \"docs\": {\n                \"3\": {\n                  \"tf\": 1000000\n                }\n              }\n            },\n            \"df\": 0,\n            \"docs\": {}\n          }\n        }\n      }\n    },\n    \"f6\": {\n      \"root\": {\n        \"df\": 0,\n        \"docs\": {},\n        \"r\": {\n          \"df\": 0,\n          \"docs\": {},\n          \"e\": {\n            \"d\": {\n              \"df\": 1,\n              \"docs\": {\n                \"3\": {\n                  \"tf\": 1000000\n                }\n              }\n            },\n            \"df\": 0,\n            \"docs\": {}\n          }\n        }\n      }\n    }\n  },\n  \"lang\": \"English\",\n  \"pipeline\": [\n    \"trimmer\",\n    \"stopWordFilter\",\n    \"stemmer\"\n  ],\n  \"ref\": \"id\",\n  \"version\": \"0.9.5\"\n}"
["remove_doc","3"] -> done
["compact"] -> done
["to_value"] -> {"documentStore":{"docInfo":{"2":{"f1":1,"f2":1,"f3":1}},"docs":{"2":{"f1":"fox","f2":"fox","f3":"fox","id":"2"}},"length":1,"save":true},"fields":["f1","f2","f3","f4","f5","f6"],"index":{"f1":{"root":{"df":0,"docs":{},"f":{"df":0,"docs":{},"o":{"df":0,"docs":{},"x":{"df":1,"docs":{"2":{"tf":1000000}}}}}}},"f2":{"root":{"df":0,"docs":{},"f":{"df":0,"docs":{},"o":{"df":0,"docs":{},"x":{"df":1,"docs":{"2":{"tf":1000000}}}}}}},"f3":{"root":{"df":0,"docs":{},"f":{"df":0,"docs":{},"o":{"df":0,"docs":{},"x":{"df":1,"docs":{"2":{"tf":1000000}}}}}}},"f4":{"root":{"df":0,"docs":{}}},"f5":{"root":{"df":0,"docs":{}}},"f6":{"root":{"df":0,"docs":{}}}},"lang":"English","pipeline":["trimmer","stopWordFilter","stemmer"],"ref":"id","version":"0.9.5"}

Index: documents are not saved
["IndexBuilder::new"] -> done
["save_docs",false] -> done
["set_ref","key"] -> done
["add_field","title"] -> done
["build"] -> done
["add_doc","a","Red fox"] -> done
["to_value"] -> {"documentStore":{"docInfo":{"a":{"title":2}},"docs":{"a":{}},"length":1,"save":false},"fields":["title"],"index":{"title":{"root":{"df":0,"docs":{},"f":{"df":0,"docs":{},"o":{"df":0,"docs":{},"x":{"df":1,"docs":{"a":{"tf":1000000}}}}},"r":{"df":0,"docs":{},"e":{"d":{"df":1,"docs":{"a":{"tf":1000000}}},"df":0,"docs":{}}}}}},"lang":"English","pipeline":["trimmer","stopWordFilter","stemmer"],"ref":"key","version":"0.9.5"}
["to_json"] -> "{\"documentStore\":{\"docInfo\":{\"a\":{\"title\":2}},\"docs\":{\"a\":{}},\"length\":1,\"save\":false},\"fields\":[\"title\"],\"index\":{\"title\":{\"root\":{\"df\":0,\"docs\":{},\"f\":{\"df\":0,\"docs\":{},\"o\":{\"df\":0,\"docs\":{},\"x\":{\"df\":1,\"docs\":{\"a\":{\"tf\":1000000}}}}},\"r\":{\"df\":0,\"docs\":{},\"e\":{\"d\":{\"df\":1,\"docs\":{\"a\":{\"tf\":1000000}}},\"df\":0,\"docs\":{}}}}}},\"lang\":\"English\",\"pipeline\":[\"trimmer\",\"stopWordFilter\",\"stemmer\"],\"ref\":\"key\",\"version\":\"0.9.5\"}"
["to_json_pretty"] -> "{\n  \"documentStore\": {\n    \"docInfo\": {\n      \"a\": {\n        \"title\": 2\n      }\n    },\n    \"docs\": {\n      \"a\": {}\n    },\n    \"length\": 1,\n    \"save\": false\n  },\n  \"fields\": [\n    \"title\"\n  ],\n  \"index\": {\n    \"title\": {\n      \"root\": {\n        \"df\": 0,\n        \"docs\": {},\n        \"f\": {\n          \"df\": 0,\n          \"docs\": {},\n          \"o\": {\n            \"df\": 0,\n            \"docs\": {},\n            \"x\": {\n              \"df\": 1,\n              \"docs\": {\n                \"a\": {\n                  \"tf\": 1000000\n                }\n              }\n            }\n          }\n        },\n        \"r\": {\n          \"df\": 0,\n          \"docs\": {},\n          \"e\": {\n            \"d\": {\n              \"df\": 1,\n              \"docs\": {\n                \"a\": {\n                  \"tf\": 1000000\n                }\n              }\n            },\n            \"df\": 0,\n            \"docs\": {}\n          }\n        }\n      }\n    }\n  },\n  \"lang\": \"English\",\n  \"pipeline\": [\n    \"trimmer\",\n    \"stopWordFilter\",\n    \"stemmer\"\n  ],\n  \"ref\": \"key\",\n  \"version\": \"0.9.5\"\n}"

Index: fields are kept in order
["IndexBuilder::new"] -> done
["add_fields","foo","bar","baz"] -> done
["build"] -> done
["get_fields","foo","bar","baz"] -> true
["to_value"] -> {"documentStore":{"docInfo":{},"docs":{},"length":0,"save":true},"fields":["foo","bar","baz"],"index":{"bar":{"root":{"df":0,"docs":{}}},"baz":{"root":{"df":0,"docs":{}}},"foo":{"root":{"df":0,"docs":{}}}},"lang":"English","pipeline":["trimmer","stopWordFilter","stemmer"],"ref":"id","version":"0.9.5"}

Index: a name that is there is refused
["IndexBuilder::new"] -> done
["add_field","title"] -> done
["add_fields","body","title"] -> refused: duplicate field

Index: a field that is there is refused
["IndexBuilder::new"] -> done
["add_field","body"] -> done
["add_field","body"] -> refused: duplicate field

Index: a name that stands twice is refused
["IndexBuilder::new"] -> done
["add_field","body"] -> done
["add_fields","a","b","a"] -> refused: duplicate field

Index: a new builder
["IndexBuilder::new"] -> done
["build"] -> done
["to_value"] -> {"documentStore":{"docInfo":{},"docs":{},"length":0,"save":true},"fields":[],"index":{},"lang":"English","pipeline":["trimmer","stopWordFilter","stemmer"],"ref":"id","version":"0.9.5"}

Index: one field and another
["IndexBuilder::new"] -> done
["add_field","body"] -> done
["add_field","title"] -> done
["build"] -> done
["to_value"] -> {"documentStore":{"docInfo":{},"docs":{},"length":0,"save":true},"fields":["body","title"],"index":{"body":{"root":{"df":0,"docs":{}}},"title":{"root":{"df":0,"docs":{}}}},"lang":"English","pipeline":["trimmer","stopWordFilter","stemmer"],"ref":"id","version":"0.9.5"}

Index: one field and many
["IndexBuilder::new"] -> done
["add_field","body"] -> done
["add_fields","title","tags","date","place"] -> done
["build"] -> done
["to_value"] -> {"documentStore":{"docInfo":{},"docs":{},"length":0,"save":true},"fields":["body","title","tags","date","place"],"index":{"body":{"root":{"df":0,"docs":{}}},"date":{"root":{"df":0,"docs":{}}},"place":{"root":{"df":0,"docs":{}}},"tags":{"root":{"df":0,"docs":{}}},"title":{"root":{"df":0,"docs":{}}}},"lang":"English","pipeline":["trimmer","stopWordFilter","stemmer"],"ref":"id","version":"0.9.5"}

Index: another reference field
["IndexBuilder::new"] -> done
["add_field","body"] -> done
["set_ref","key"] -> done
["save_docs",false] -> done
["build"] -> done
["to_value"] -> {"documentStore":{"docInfo":{},"docs":{},"length":0,"save":false},"fields":["body"],"index":{"body":{"root":{"df":0,"docs":{}}}},"lang":"English","pipeline":["trimmer","stopWordFilter","stemmer"],"ref":"key","version":"0.9.5"}

Index: a new index
["Index::new","title","body"] -> done
["to_value"] -> {"documentStore":{"docInfo":{},"docs":{},"length":0,"save":true},"fields":["title","body"],"index":{"body":{"root":{"df":0,"docs":{}}},"title":{"root":{"df":0,"docs":{}}}},"lang":"English","pipeline":["trimmer","stopWordFilter","stemmer"],"ref":"id","version":"0.9.5"}

Index: an empty pipeline
["IndexBuilder::new"] -> done
["add_field","body"] -> done
["with_pipeline"] -> done
["build"] -> done
["add_doc","1","Go"] -> done
["to_value"] -> {"documentStore":{"docInfo":{"1":{"body":1}},"docs":{"1":{"body":"Go","id":"1"}},"length":1,"save":true},"fields":["body"],"index":{"body":{"root":{"df":0,"docs":{},"g":{"df":0,"docs":{},"o":{"df":1,"docs":{"1":{"tf":1000000}}}}}}},"lang":"English","pipeline":[],"ref":"id","version":"0.9.5"}
["to_json"] -> "{\"documentStore\":{\"docInfo\":{\"1\":{\"body\":1}},\"docs\":{\"1\":{\"body\":\"Go\",\"id\":\"1\"}},\"length\":1,\"save\":true},\"fields\":[\"body\"],\"index\":{\"body\":{\"root\":{\"df\":0,\"docs\":{},\"g\":{\"df\":0,\"docs\":{},\"o\":{\"df\":1,\"docs\":{\"1\":{\"tf\":1000000}}}}}}},\"lang\":\"English\",\"pipeline\":[],\"ref\":\"id\",\"version\":\"0.9.5\"}"
["to_json_pretty"] -> "{\n  \"documentStore\": {\n    \"docInfo\": {\n      \"1\": {\n        \"body\": 1\n      }\n    },\n    \"docs\": {\n      \"1\": {\n        \"body\": \"Go\",\n        \"id\": \"1\"\n      }\n    },\n    \"length\": 1,\n    \"save\": true\n  },\n  \"fields\": [\n    \"body\"\n  ],\n  \"index\": {\n    \"body\": {\n      \"root\": {\n        \"df\": 0,\n        \"docs\": {},\n        \"g\": {\n          \"df\": 0,\n          \"docs\": {},\n          \"o\": {\n            \"df\": 1,\n            \"docs\": {\n              \"1\": {\n                \"tf\": 1000000\n              }\n            }\n          }\n        }\n      }\n    }\n  },\n  \"lang\": \"English\",\n  \"pipeline\": [],\n  \"ref\": \"id\",\n  \"version\": \"0.9.5\"\n}"

Index with a function: has failed
["IndexBuilder::new"] -> done
["with_pipeline"] -> done
["add_field","body"] -> done
["build"] -> done
["add_doc","1","a"] -> done
["to_value"] -> {"documentStore":{"docInfo":{"1":{"body":1}},"docs":{"1":{"body":"a","id":"1"}},"length":1,"save":true},"fields":["body"],"index":{"body":{"root":{"a":{"df":1,"docs":{"1":{"tf":1000000}}},"df":0,"docs":{}}}},"lang":"English","pipeline":["copy"],"ref":"id","version":"0.9.5"}
["add_doc","1","a b"] -> refused: out of memory
["get_fields","body"] -> true
["add_doc","1","fox"] -> refused: the index has failed
["add_doc","1","red","fox"] -> refused: the index has failed
["remove_doc","1"] -> refused: the index has failed
["compact"] -> refused: the index has failed
["to_value"] -> refused: the index has failed
["to_json"] -> refused: the index has failed
["to_json_pretty"] -> refused: the index has failed
["document_store"] -> refused: the index has failed
["inverted_index","body","a"] -> refused: the index has failed

Index with an object: has failed
["IndexBuilder::new"] -> done
["with_pipeline"] -> done
["add_field","body"] -> done
["build"] -> done
["add_doc","1","a"] -> done
["to_value"] -> {"documentStore":{"docInfo":{"1":{"body":1}},"docs":{"1":{"body":"a","id":"1"}},"length":1,"save":true},"fields":["body"],"index":{"body":{"root":{"a":{"df":1,"docs":{"1":{"tf":1000000}}},"df":0,"docs":{}}}},"lang":"English","pipeline":["own"],"ref":"id","version":"0.9.5"}
["add_doc","1","a b"] -> refused: out of memory
["get_fields","body"] -> true
["add_doc","1","fox"] -> refused: the index has failed
["add_doc","1","red","fox"] -> refused: the index has failed
["remove_doc","1"] -> refused: the index has failed
["compact"] -> refused: the index has failed
["to_value"] -> refused: the index has failed
["to_json"] -> refused: the index has failed
["to_json_pretty"] -> refused: the index has failed
["document_store"] -> refused: the index has failed
["inverted_index","body","a"] -> refused: the index has failed

Index with a tokenizer: has failed
["add_field_with_tokenizer","title"] -> done
["add_field","body"] -> done
["build"] -> done
["add_doc","1","New York","New York"] -> done
["to_value"] -> {"documentStore":{"docInfo":{"1":{"body":2,"title":1}},"docs":{"1":{"body":"New York","id":"1","title":"New York"}},"length":1,"save":true},"fields":["title","body"],"index":{"body":{"root":{"df":0,"docs":{},"n":{"df":0,"docs":{},"e":{"df":0,"docs":{},"w":{"df":1,"docs":{"1":{"tf":1000000}}}}},"y":{"df":0,"docs":{},"o":{"df":0,"docs":{},"r":{"df":0,"docs":{},"k":{"df":1,"docs":{"1":{"tf":1000000}}}}}}}},"title":{"root":{"N":{"df":0,"docs":{},"e":{"df":0,"docs":{},"w":{" ":{"Y":{"df":0,"docs":{},"o":{"df":0,"docs":{},"r":{"df":0,"docs":{},"k":{"df":1,"docs":{"1":{"tf":1000000}}}}}},"df":0,"docs":{}},"df":0,"docs":{}}}},"df":0,"docs":{}}}},"lang":"English","pipeline":["trimmer","stopWordFilter","stemmer"],"ref":"id","version":"0.9.5"}
["to_json"] -> "{\"documentStore\":{\"docInfo\":{\"1\":{\"body\":2,\"title\":1}},\"docs\":{\"1\":{\"body\":\"New York\",\"id\":\"1\",\"title\":\"New York\"}},\"length\":1,\"save\":true},\"fields\":[\"title\",\"body\"],\"index\":{\"body\":{\"root\":{\"df\":0,\"docs\":{},\"n\":{\"df\":0,\"docs\":{},\"e\":{\"df\":0,\"docs\":{},\"w\":{\"df\":1,\"docs\":{\"1\":{\"tf\":1000000}}}}},\"y\":{\"df\":0,\"docs\":{},\"o\":{\"df\":0,\"docs\":{},\"r\":{\"df\":0,\"docs\":{},\"k\":{\"df\":1,\"docs\":{\"1\":{\"tf\":1000000}}}}}}}},\"title\":{\"root\":{\"N\":{\"df\":0,\"docs\":{},\"e\":{\"df\":0,\"docs\":{},\"w\":{\" \":{\"Y\":{\"df\":0,\"docs\":{},\"o\":{\"df\":0,\"docs\":{},\"r\":{\"df\":0,\"docs\":{},\"k\":{\"df\":1,\"docs\":{\"1\":{\"tf\":1000000}}}}}},\"df\":0,\"docs\":{}},\"df\":0,\"docs\":{}}}},\"df\":0,\"docs\":{}}}},\"lang\":\"English\",\"pipeline\":[\"trimmer\",\"stopWordFilter\",\"stemmer\"],\"ref\":\"id\",\"version\":\"0.9.5\"}"
["to_json_pretty"] -> "{\n  \"documentStore\": {\n    \"docInfo\": {\n      \"1\": {\n        \"body\": 2,\n        \"title\": 1\n      }\n    },\n    \"docs\": {\n      \"1\": {\n        \"body\": \"New York\",\n        \"id\": \"1\",\n        \"title\": \"New York\"\n      }\n    },\n    \"length\": 1,\n    \"save\": true\n  },\n  \"fields\": [\n    \"title\",\n    \"body\"\n  ],\n  \"index\": {\n    \"body\": {\n      \"root\": {\n        \"df\": 0,\n        \"docs\": {},\n        \"n\": {\n          \"df\": 0,\n          \"docs\": {},\n          \"e\": {\n            \"df\": 0,\n            \"docs\": {},\n            \"w\": {\n              \"df\": 1,\n              \"docs\": {\n                \"1\": {\n                  \"tf\": 1000000\n                }\n              }\n            }\n          }\n        },\n        \"y\": {\n          \"df\": 0,\n          \"docs\": {},\n          \"o\": {\n            \"df\": 0,\n            \"docs\": {},\n            \"r\": {\n              \"df\": 0,\n              \"docs\": {},\n              \"k\": {\n                \"df\": 1,\n                \"docs\": {\n                  \"1\": {\n                    \"tf\": 1000000\n                  }\n                }\n              }\n            }\n          }\n        }\n      }\n    },\n    \"title\": {\n      \"root\": {\n        \"N\": {\n          \"df\": 0,\n          \"docs\": {},\n          \"e\": {\n            \"df\": 0,\n            \"docs\": {},\n            \"w\": {\n              \" \": {\n                \"Y\": {\n                  \"df\": 0,\n                  \"docs\": {},\n                  \"o\": {\n                    \"df\": 0,\n                    \"docs\": {},\n                    \"r\": {\n                      \"df\": 0,\n                      \"docs\": {},\n                      \"k\": {\n                        \"df\": 1,\n                        \"docs\": {\n                          \"1\": {\n                            \"tf\": 1000000\n                          }\n                        }\n                      }\n                    }\n                  }\n                },\n                \"df\": 0,\n                \"docs\": {}\n              },\n              \"df\": 0,\n              \"docs\": {}\n            }\n          }\n        },\n        \"df\": 0,\n        \"docs\": {}\n      }\n    }\n  },\n  \"lang\": \"English\",\n  \"pipeline\": [\n    \"trimmer\",\n    \"stopWordFilter\",\n    \"stemmer\"\n  ],\n  \"ref\": \"id\",\n  \"version\": \"0.9.5\"\n}"
["add_doc","1","a b"] -> refused: out of memory
["get_fields","title","body"] -> true
["add_doc","1","fox"] -> refused: the index has failed
["add_doc","1","red","fox"] -> refused: the index has failed
["remove_doc","1"] -> refused: the index has failed
["compact"] -> refused: the index has failed
["to_value"] -> refused: the index has failed
["to_json"] -> refused: the index has failed
["to_json_pretty"] -> refused: the index has failed
["document_store"] -> refused: the index has failed
["inverted_index","body","a"] -> refused: the index has failed

Index of WithoutB: has failed
["Index::with_language","body"] -> done
["to_value"] -> {"documentStore":{"docInfo":{},"docs":{},"length":0,"save":true},"fields":["body"],"index":{"body":{"root":{"df":0,"docs":{}}}},"lang":"WithoutB","pipeline":["all"],"ref":"id","version":"0.9.5"}
["add_doc","1","a"] -> done
["add_doc","1","a b"] -> refused: out of memory
["get_fields","body"] -> true
["add_doc","1","fox"] -> refused: the index has failed
["add_doc","1","red","fox"] -> refused: the index has failed
["remove_doc","1"] -> refused: the index has failed
["compact"] -> refused: the index has failed
["to_value"] -> refused: the index has failed
["to_json"] -> refused: the index has failed
["to_json_pretty"] -> refused: the index has failed
["document_store"] -> refused: the index has failed
["inverted_index","body","a"] -> refused: the index has failed

Index of Danish: a language that is chosen when the program runs
["Index::with_language","body"] -> done
["add_doc","1","PÅ øen!"] -> done
["to_value"] -> {"documentStore":{"docInfo":{"1":{"body":1}},"docs":{"1":{"body":"PÅ øen!","id":"1"}},"length":1,"save":true},"fields":["body"],"index":{"body":{"root":{"df":0,"docs":{},"ø":{"df":0,"docs":{},"e":{"df":0,"docs":{},"n":{"df":1,"docs":{"1":{"tf":1000000}}}}}}}},"lang":"Danish","pipeline":["trimmer-da","stopWordFilter-da"],"ref":"id","version":"0.9.5"}
["to_json"] -> "{\"documentStore\":{\"docInfo\":{\"1\":{\"body\":1}},\"docs\":{\"1\":{\"body\":\"PÅ øen!\",\"id\":\"1\"}},\"length\":1,\"save\":true},\"fields\":[\"body\"],\"index\":{\"body\":{\"root\":{\"df\":0,\"docs\":{},\"ø\":{\"df\":0,\"docs\":{},\"e\":{\"df\":0,\"docs\":{},\"n\":{\"df\":1,\"docs\":{\"1\":{\"tf\":1000000}}}}}}}},\"lang\":\"Danish\",\"pipeline\":[\"trimmer-da\",\"stopWordFilter-da\"],\"ref\":\"id\",\"version\":\"0.9.5\"}"
["to_json_pretty"] -> "{\n  \"documentStore\": {\n    \"docInfo\": {\n      \"1\": {\n        \"body\": 1\n      }\n    },\n    \"docs\": {\n      \"1\": {\n        \"body\": \"PÅ øen!\",\n        \"id\": \"1\"\n      }\n    },\n    \"length\": 1,\n    \"save\": true\n  },\n  \"fields\": [\n    \"body\"\n  ],\n  \"index\": {\n    \"body\": {\n      \"root\": {\n        \"df\": 0,\n        \"docs\": {},\n        \"ø\": {\n          \"df\": 0,\n          \"docs\": {},\n          \"e\": {\n            \"df\": 0,\n            \"docs\": {},\n            \"n\": {\n              \"df\": 1,\n              \"docs\": {\n                \"1\": {\n                  \"tf\": 1000000\n                }\n              }\n            }\n          }\n        }\n      }\n    }\n  },\n  \"lang\": \"Danish\",\n  \"pipeline\": [\n    \"trimmer-da\",\n    \"stopWordFilter-da\"\n  ],\n  \"ref\": \"id\",\n  \"version\": \"0.9.5\"\n}"

Index of Danish: a builder
["IndexBuilder::with_language"] -> done
["build"] -> done
["to_value"] -> {"documentStore":{"docInfo":{},"docs":{},"length":0,"save":true},"fields":[],"index":{},"lang":"Danish","pipeline":["trimmer-da","stopWordFilter-da"],"ref":"id","version":"0.9.5"}

Index of Korean
["Index::with_language","title","body"] -> done
["to_value"] -> {"documentStore":{"docInfo":{},"docs":{},"length":0,"save":true},"fields":["title","body"],"index":{"body":{"root":{"df":0,"docs":{}}},"title":{"root":{"df":0,"docs":{}}}},"lang":"Korean","pipeline":["trimmer-ko","stopWordFilter-ko","stemmer-ko"],"ref":"id","version":"0.9.5"}

Index of Korean: a name that stands twice is refused
["Index::with_language","a","a"] -> refused: duplicate field

Index: tokens that come with a value go through the pipeline or not, as the value says
["Index::new","body"] -> done
["add_doc_with_tokens","1","Pages","pages","the","Red!",1] -> done
["get_docs","body","page"] -> {"1":1000000}
["get_docs","body","Red"] -> {"1":1000000}
["has_token","body","pages"] -> false
["has_token","body","the"] -> false
["add_doc_with_tokens","2","Pages","pages","the","the",2] -> done
["get_docs","body","pages"] -> {"2":1000000}
["get_term_frequency","body","2","the"] -> 1414213
["add_doc_with_tokens","2","red pages","blue",0] -> done
["get_docs","body","pages"] -> {}
["get_docs","body","page"] -> {"1":1000000,"2":1000000}
["has_token","body","blue"] -> false
["document_store"] -> 2

Index: of tokens that come with a value only the distinct ones that are not empty have postings
["Index::new","body"] -> done
["add_doc_with_tokens","1","","a","","a",2] -> done
["to_value"] -> {"documentStore":{"docInfo":{"1":{"body":3}},"docs":{"1":{"body":"","id":"1"}},"length":1,"save":true},"fields":["body"],"index":{"body":{"root":{"a":{"df":1,"docs":{"1":{"tf":1414213}}},"df":0,"docs":{}}}},"lang":"English","pipeline":["trimmer","stopWordFilter","stemmer"],"ref":"id","version":"0.9.5"}

Index: the field of the reference has no tokens, though some come with its value
["Index::new","id"] -> done
["add_doc_with_tokens","1","1","go",2] -> done
["has_token","id","go"] -> false
["add_doc_with_tokens","1","1","go",1] -> done
["has_token","id","go"] -> false

Index: more values with tokens than fields are refused
["Index::new"] -> done
["add_doc_with_tokens","1","go","go",2] -> refused: too many values
["document_store"] -> 0
"##;
