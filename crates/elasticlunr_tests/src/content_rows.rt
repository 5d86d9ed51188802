//! The calls of tries, stores and search options, and of functions, and what each returns. docs/TABLES.md says how a row is written.

/// The rows.
pub const ROWS: &str = r##"InvertedIndex: knows what was added
["has_token",""] -> true
["get_docs",""] -> {}
["get_docs","foo"] -> null
["add_token","123","foo",1] -> done
["get_docs","foo"] -> {"123":1}
["has_token","foo"] -> true
["has_token","fo"] -> true
["has_token","f"] -> true
["has_token","fooo"] -> false
["has_token","fof"] -> false
["has_token","foo "] -> false
["has_token","foo  "] -> false
["has_token","bar"] -> false
["remove_token","123","foo"] -> done
["has_token","foo"] -> true
["get_docs","foo"] -> {}
["get_doc_frequency","foo"] -> 0

InvertedIndex: the references of a token are those that have a posting there, in the order of their bytes
["add_token","b","foo",1] -> done
["add_token","a","foo",2] -> done
["add_token","c","fo",1] -> done
["references","foo"] -> ["a","b"]
["references","fo"] -> ["c"]
["references","f"] -> []
["references","bar"] -> []
["has_posting","a","foo"] -> true
["has_posting","c","foo"] -> false
["remove_doc","a"] -> done
["references","foo"] -> ["b"]
["has_posting","a","foo"] -> false

InvertedIndex: the tokens that begin with a text, in the order of their characters
["tokens",""] -> []
["add_token","1","foo",1] -> done
["add_token","2","fo",1] -> done
["add_token","1","bar",1] -> done
["add_token","3","f😀",1] -> done
["add_token","2","f｡",1] -> done
["add_token","1","fé",1] -> done
["tokens","f"] -> ["fo","foo","fé","f｡","f😀"]
["tokens","fo"] -> ["fo","foo"]
["tokens",""] -> ["bar","fo","foo","fé","f｡","f😀"]
["tokens","foo"] -> ["foo"]
["tokens","f😀"] -> ["f😀"]
["tokens","fooo"] -> []
["tokens","o"] -> []
["remove_token","2","fo"] -> done
["tokens","fo"] -> ["foo"]
["remove_doc","1"] -> done
["tokens",""] -> ["f｡","f😀"]
["tokens","fo"] -> []
["tokens","b"] -> []

InvertedIndex: the postings of a token, in the order of the references' bytes
["postings","foo"] -> []
["add_token","b","foo",3] -> done
["add_token","é","foo",5] -> done
["add_token","B","foo",4] -> done
["add_token","ba","foo",6] -> done
["add_token","","foo",7] -> done
["add_token","c","fo",1] -> done
["postings","foo"] -> [["",7],["B",4],["b",3],["ba",6],["é",5]]
["postings","fo"] -> [["c",1]]
["postings","f"] -> []
["postings",""] -> []
["postings","fooo"] -> []
["add_token","b","foo",9] -> done
["postings","foo"] -> [["",7],["B",4],["b",9],["ba",6],["é",5]]
["remove_token","ba","foo"] -> done
["remove_doc",""] -> done
["postings","foo"] -> [["B",4],["b",9],["é",5]]

InvertedIndex: the references of several tokens are put into one set, in the order of their bytes
["add_token","é","foo",5] -> done
["add_token","B","foo",4] -> done
["add_token","ba","foo",6] -> done
["add_token","ba","bar",1] -> done
["add_token","","bar",2] -> done
["put_references","foo"] -> ["B","ba","é"]
["put_references","foo","bar"] -> ["","B","ba","é"]
["put_references","fo","b","none"] -> []
["put_references"] -> []
["copied","ba","é","B","ba"] -> ["B","ba","é"]
["copied"] -> []

InvertedIndex: a new frequency replaces the one before
["add_token","123","foo",1] -> done
["add_token","456","foo",1] -> done
["add_token","456","foo",100] -> done
["get_term_frequency","456","foo"] -> 100
["get_term_frequency","789","foo"] -> 0
["get_doc_frequency","foo"] -> 2
["remove_doc","456"] -> done
["get_doc_frequency","foo"] -> 1
["add_token","1","x",0] -> done
["get_term_frequency","1","x"] -> 0
["get_doc_frequency","x"] -> 1

InvertedIndex: each token has its own postings
["add_token","123","foo",1] -> done
["add_token","234","boo",100] -> done
["add_token","345","too",101] -> done
["get_docs","foo"] -> {"123":1}
["add_token","234","foo",100] -> done
["add_token","345","foo",101] -> done
["get_docs","foo"] -> {"123":1,"234":100,"345":101}
["get_doc_frequency","foo"] -> 3
["get_doc_frequency","boo"] -> 1
["get_doc_frequency","fox"] -> 0
["get_doc_frequency","fo"] -> 0
["get_doc_frequency","f"] -> 0
["get_doc_frequency","b"] -> 0
["get_doc_frequency","baz"] -> 0
["get_term_frequency","234","foo"] -> 100
["get_term_frequency","234","boo"] -> 100
["get_term_frequency","345","boo"] -> 0
["get_term_frequency","789","foo"] -> 0
["get_term_frequency","123","ken"] -> 0
["get_term_frequency","foo","12"] -> 0
["get_term_frequency","123","fo"] -> 0

InvertedIndex: to remove what is not there changes nothing
["remove_token","123","foo"] -> done
["has_token","foo"] -> false
["add_token","123","foo",1] -> done
["add_token","567","bar",1] -> done
["remove_token","foo","456"] -> done
["remove_token","567","foo"] -> done
["remove_doc","9"] -> done
["get_docs","foo"] -> {"123":1}
["get_docs","bar"] -> {"567":1}

InvertedIndex: tokens that are named as keys
["add_token","1","docs",5] -> done
["add_token","1","df",7] -> done
["to_value"] -> {"root":{"d":{"df":0,"docs":{},"f":{"df":1,"docs":{"1":{"tf":7}}},"o":{"c":{"df":0,"docs":{},"s":{"df":1,"docs":{"1":{"tf":5}}}},"df":0,"docs":{}}},"df":0,"docs":{}}}
["swap"] -> done
["from_value",{"root":{"d":{"df":0,"docs":{},"f":{"df":1,"docs":{"1":{"tf":7}}},"o":{"c":{"df":0,"docs":{},"s":{"df":1,"docs":{"1":{"tf":5}}}},"df":0,"docs":{}}},"df":0,"docs":{}}}] -> done
["eq"] -> true

InvertedIndex: odd characters
["add_token","a\"\n","𐀀",1] -> done
["add_token","é","￿",2] -> done
["add_token","","\"",3] -> done
["to_value"] -> {"root":{"\"":{"df":1,"docs":{"":{"tf":3}}},"df":0,"docs":{},"￿":{"df":1,"docs":{"é":{"tf":2}}},"𐀀":{"df":1,"docs":{"a\"\n":{"tf":1}}}}}
["swap"] -> done
["from_value",{"root":{"\"":{"df":1,"docs":{"":{"tf":3}}},"df":0,"docs":{},"￿":{"df":1,"docs":{"é":{"tf":2}}},"𐀀":{"df":1,"docs":{"a\"\n":{"tf":1}}}}}] -> done
["eq"] -> true

InvertedIndex: a removed path is known until a compaction
["add_token","1","ab",3] -> done
["remove_token","1","ab"] -> done
["add_token","1","a",4] -> done
["to_value"] -> {"root":{"a":{"b":{"df":0,"docs":{}},"df":1,"docs":{"1":{"tf":4}}},"df":0,"docs":{}}}
["swap"] -> done
["from_value",{"root":{"a":{"b":{"df":0,"docs":{}},"df":1,"docs":{"1":{"tf":4}}},"df":0,"docs":{}}}] -> done
["eq"] -> true
["new"] -> done
["add_token","1","a",4] -> done
["eq"] -> false
["swap"] -> done
["compacted"] -> done
["eq"] -> true
["to_value"] -> {"root":{"a":{"df":1,"docs":{"1":{"tf":4}}},"df":0,"docs":{}}}

InvertedIndex: tokens that are added together have the postings that they have one by one
["add_tokens","1","ab","ac",3] -> done
["to_value"] -> {"root":{"a":{"b":{"df":1,"docs":{"1":{"tf":3}}},"c":{"df":1,"docs":{"1":{"tf":3}}},"df":0,"docs":{}},"df":0,"docs":{}}}
["add_tokens","2","","ab",5] -> done
["get_docs","ab"] -> {"1":3,"2":5}
["get_docs",""] -> {}
["add_tokens","2","abcdefgh","abcdefg",4] -> done
["get_docs","abcdefg"] -> {"2":4}
["get_doc_frequency","abcdef"] -> 0
["swap"] -> done
["add_token","1","ac",3] -> done
["add_token","1","ab",3] -> done
["add_token","2","ab",5] -> done
["add_token","2","abcdefg",4] -> done
["add_token","2","abcdefgh",4] -> done
["eq"] -> true

InvertedIndex: known tokens that are added together
["add_tokens","1","ab","abc","b",3] -> done
["add_tokens","2","ab","ab","abc","a","c","ab","abc","ab",5] -> done
["get_docs","ab"] -> {"1":3,"2":5}
["get_docs","a"] -> {"2":5}
["add_tokens","3","ab","a","d",1] -> done
["to_value"] -> {"root":{"a":{"b":{"c":{"df":2,"docs":{"1":{"tf":3},"2":{"tf":5}}},"df":3,"docs":{"1":{"tf":3},"2":{"tf":5},"3":{"tf":1}}},"df":2,"docs":{"2":{"tf":5},"3":{"tf":1}}},"b":{"df":1,"docs":{"1":{"tf":3}}},"c":{"df":1,"docs":{"2":{"tf":5}}},"d":{"df":1,"docs":{"3":{"tf":1}}},"df":0,"docs":{}}}

InvertedIndex: the order of additions makes no difference
["add_token","1","ab",1] -> done
["add_token","1","ac",2] -> done
["swap"] -> done
["add_token","1","ac",2] -> done
["add_token","1","ab",1] -> done
["eq"] -> true
["to_value"] -> {"root":{"a":{"b":{"df":1,"docs":{"1":{"tf":1}}},"c":{"df":1,"docs":{"1":{"tf":2}}},"df":0,"docs":{}},"df":0,"docs":{}}}
["swap"] -> done
["from_value",{"root":{"a":{"b":{"df":1,"docs":{"1":{"tf":1}}},"c":{"df":1,"docs":{"1":{"tf":2}}},"df":0,"docs":{}},"df":0,"docs":{}}}] -> done
["eq"] -> true

InvertedIndex: a trie is written
["write"] -> "{\"root\":{\"df\":0,\"docs\":{}}}"
["add_token","é","ab",3] -> done
["add_token","B","ab",5] -> done
["add_token","B","ac",4] -> done
["add_token","ba","abc",6] -> done
["remove_token","B","ac"] -> done
["write"] -> "{\"root\":{\"a\":{\"b\":{\"c\":{\"df\":1,\"docs\":{\"ba\":{\"tf\":6}}},\"df\":2,\"docs\":{\"B\":{\"tf\":5},\"é\":{\"tf\":3}}},\"c\":{\"df\":0,\"docs\":{}},\"df\":0,\"docs\":{}},\"df\":0,\"docs\":{}}}"

InvertedIndex: small values are read
["from_value",{"root":{"docs":{},"df":0}}] -> done
["eq"] -> true
["from_value",{"root":{"docs":{},"df":0,"a":{"docs":{},"df":0}}}] -> done
["has_token","a"] -> true
["get_doc_frequency","a"] -> 0
["eq"] -> false

InvertedIndex: foreign values are refused
["from_value",{"root":{"docs":{"1":{"tf":1}},"df":1}}] -> refused: foreign value
["from_value",{"root":{"docs":{},"df":0,"a":{"docs":{"1":{"tf":1}},"df":2}}}] -> refused: foreign value
["from_value",{"root":{"docs":{},"df":0,"ab":{"docs":{},"df":0}}}] -> refused: foreign value
["from_value",{"root":{"docs":{},"df":0,"":{"docs":{},"df":0}}}] -> refused: foreign value
["from_value",{"root":{"docs":{},"df":0,"a":{"docs":{"1":{"tf":-1}},"df":1}}}] -> refused: foreign value
["from_value",{"root":{"docs":{},"df":0,"a":{"docs":{"1":{"tf":1.0}},"df":1}}}] -> refused: foreign value
["from_value",{"root":{"docs":{},"df":0,"a":{"docs":{"1":{"tf":1,"x":2}},"df":1}}}] -> refused: foreign value
["from_value",{"root":{"docs":{},"df":0,"a":{"docs":{"1":{}},"df":1}}}] -> refused: foreign value
["from_value",{"root":{"docs":{},"df":0,"a":{"docs":{}}}}] -> refused: foreign value
["from_value",{"root":{"docs":[],"df":0}}] -> refused: foreign value
["from_value",{"root":{"docs":{},"df":0},"x":1}] -> refused: foreign value
["from_value",{"root":null}] -> refused: foreign value
["from_value",null] -> refused: foreign value
["from_value",[]] -> refused: foreign value

InvertedIndex: new
["new"] -> done
["to_value"] -> {"root":{"df":0,"docs":{}}}

InvertedIndex: a value is read and written
["from_value",{"root":{"df":0,"docs":{},"a":{"df":0,"docs":{},"b":{"df":1,"docs":{"1":{"tf":3}}},"c":{"df":0,"docs":{}}}}}] -> done
["to_value"] -> {"root":{"a":{"b":{"df":1,"docs":{"1":{"tf":3}}},"c":{"df":0,"docs":{}},"df":0,"docs":{}},"df":0,"docs":{}}}
["from_value",{"root":{"df":0,"docs":{},"a":{"df":2,"docs":{"1":{"tf":3}}}}}] -> refused: foreign value

InvertedIndex: look-ups in a trie that knows a token without a posting
["add_token","1","ab",3] -> done
["add_token","2","ac",4] -> done
["add_token","2","ad",5] -> done
["remove_token","2","ad"] -> done
["get_docs","ab"] -> {"1":3}
["get_docs","b"] -> null
["has_token","ad"] -> true
["get_term_frequency","1","ab"] -> 3
["get_doc_frequency","ac"] -> 1
["to_value"] -> {"root":{"a":{"b":{"df":1,"docs":{"1":{"tf":3}}},"c":{"df":1,"docs":{"2":{"tf":4}}},"d":{"df":0,"docs":{}},"df":0,"docs":{}},"df":0,"docs":{}}}
["swap"] -> done
["add_token","1","ab",3] -> done
["add_token","2","ac",4] -> done
["add_token","2","ad",5] -> done
["remove_token","2","ad"] -> done
["eq"] -> true
["compacted"] -> done
["to_value"] -> {"root":{"a":{"b":{"df":1,"docs":{"1":{"tf":3}}},"c":{"df":1,"docs":{"2":{"tf":4}}},"df":0,"docs":{}},"df":0,"docs":{}}}
["eq"] -> false

InvertedIndex: a new token
["add_token","1","ab",3] -> done
["add_token","2","ac",4] -> done
["add_token","2","ad",5] -> done
["remove_token","2","ad"] -> done
["to_value"] -> {"root":{"a":{"b":{"df":1,"docs":{"1":{"tf":3}}},"c":{"df":1,"docs":{"2":{"tf":4}}},"d":{"df":0,"docs":{}},"df":0,"docs":{}},"df":0,"docs":{}}}
["add_token","3","bée",6] -> done
["to_value"] -> {"root":{"a":{"b":{"df":1,"docs":{"1":{"tf":3}}},"c":{"df":1,"docs":{"2":{"tf":4}}},"d":{"df":0,"docs":{}},"df":0,"docs":{}},"b":{"df":0,"docs":{},"é":{"df":0,"docs":{},"e":{"df":1,"docs":{"3":{"tf":6}}}}},"df":0,"docs":{}}}

InvertedIndex: a token with a known beginning
["add_token","1","ab",3] -> done
["add_token","2","ac",4] -> done
["add_token","2","ad",5] -> done
["remove_token","2","ad"] -> done
["to_value"] -> {"root":{"a":{"b":{"df":1,"docs":{"1":{"tf":3}}},"c":{"df":1,"docs":{"2":{"tf":4}}},"d":{"df":0,"docs":{}},"df":0,"docs":{}},"df":0,"docs":{}}}
["add_token","3","abc",6] -> done
["to_value"] -> {"root":{"a":{"b":{"c":{"df":1,"docs":{"3":{"tf":6}}},"df":1,"docs":{"1":{"tf":3}}},"c":{"df":1,"docs":{"2":{"tf":4}}},"d":{"df":0,"docs":{}},"df":0,"docs":{}},"df":0,"docs":{}}}

InvertedIndex: a known token
["add_token","1","ab",3] -> done
["add_token","2","ac",4] -> done
["add_token","2","ad",5] -> done
["remove_token","2","ad"] -> done
["to_value"] -> {"root":{"a":{"b":{"df":1,"docs":{"1":{"tf":3}}},"c":{"df":1,"docs":{"2":{"tf":4}}},"d":{"df":0,"docs":{}},"df":0,"docs":{}},"df":0,"docs":{}}}
["add_token","3","ab",6] -> done
["to_value"] -> {"root":{"a":{"b":{"df":2,"docs":{"1":{"tf":3},"3":{"tf":6}}},"c":{"df":1,"docs":{"2":{"tf":4}}},"d":{"df":0,"docs":{}},"df":0,"docs":{}},"df":0,"docs":{}}}

InvertedIndex: a posting that is there
["add_token","1","ab",3] -> done
["add_token","2","ac",4] -> done
["add_token","2","ad",5] -> done
["remove_token","2","ad"] -> done
["to_value"] -> {"root":{"a":{"b":{"df":1,"docs":{"1":{"tf":3}}},"c":{"df":1,"docs":{"2":{"tf":4}}},"d":{"df":0,"docs":{}},"df":0,"docs":{}},"df":0,"docs":{}}}
["add_token","1","ab",6] -> done
["to_value"] -> {"root":{"a":{"b":{"df":1,"docs":{"1":{"tf":6}}},"c":{"df":1,"docs":{"2":{"tf":4}}},"d":{"df":0,"docs":{}},"df":0,"docs":{}},"df":0,"docs":{}}}

InvertedIndex: the empty token
["add_token","1","ab",3] -> done
["add_token","2","ac",4] -> done
["add_token","2","ad",5] -> done
["remove_token","2","ad"] -> done
["to_value"] -> {"root":{"a":{"b":{"df":1,"docs":{"1":{"tf":3}}},"c":{"df":1,"docs":{"2":{"tf":4}}},"d":{"df":0,"docs":{}},"df":0,"docs":{}},"df":0,"docs":{}}}
["add_token","3","",6] -> done
["to_value"] -> {"root":{"a":{"b":{"df":1,"docs":{"1":{"tf":3}}},"c":{"df":1,"docs":{"2":{"tf":4}}},"d":{"df":0,"docs":{}},"df":0,"docs":{}},"df":0,"docs":{}}}

InvertedIndex: a posting is removed
["add_token","1","ab",3] -> done
["add_token","2","ac",4] -> done
["add_token","2","ad",5] -> done
["remove_token","2","ad"] -> done
["to_value"] -> {"root":{"a":{"b":{"df":1,"docs":{"1":{"tf":3}}},"c":{"df":1,"docs":{"2":{"tf":4}}},"d":{"df":0,"docs":{}},"df":0,"docs":{}},"df":0,"docs":{}}}
["remove_token","1","ab"] -> done
["to_value"] -> {"root":{"a":{"b":{"df":0,"docs":{}},"c":{"df":1,"docs":{"2":{"tf":4}}},"d":{"df":0,"docs":{}},"df":0,"docs":{}},"df":0,"docs":{}}}

InvertedIndex: a reference is removed
["add_token","1","ab",3] -> done
["add_token","2","ac",4] -> done
["add_token","2","ad",5] -> done
["remove_token","2","ad"] -> done
["to_value"] -> {"root":{"a":{"b":{"df":1,"docs":{"1":{"tf":3}}},"c":{"df":1,"docs":{"2":{"tf":4}}},"d":{"df":0,"docs":{}},"df":0,"docs":{}},"df":0,"docs":{}}}
["remove_doc","2"] -> done
["to_value"] -> {"root":{"a":{"b":{"df":1,"docs":{"1":{"tf":3}}},"c":{"df":0,"docs":{}},"d":{"df":0,"docs":{}},"df":0,"docs":{}},"df":0,"docs":{}}}

DocumentStore: texts and lengths
["new",true] -> done
["is_empty"] -> true
["is_stored"] -> true
["give","title","moon"] -> done
["add_doc","1"] -> done
["add_field_length","1","title",4] -> done
["add_field_length","2","body",7] -> done
["has_doc","1"] -> true
["has_doc","2"] -> false
["len"] -> 1
["length"] -> 1
["docs"] -> 1
["doc_info"] -> 2
["is_empty"] -> false
["to_value"] -> {"docInfo":{"1":{"title":4},"2":{"body":7}},"docs":{"1":{"title":"moon"}},"length":1,"save":true}
["swap"] -> done
["from_value",{"docInfo":{"1":{"title":4},"2":{"body":7}},"docs":{"1":{"title":"moon"}},"length":1,"save":true}] -> done
["eq"] -> true
["clone"] -> done
["eq"] -> true
["forget_doc","1"] -> done
["forget_doc","2"] -> done
["swap"] -> done
["new",true] -> done
["eq"] -> true

DocumentStore: documents come and go
["new",true] -> done
["has_doc","1"] -> false
["give","title","moon and tide"] -> done
["add_doc","1"] -> done
["give","title","sun"] -> done
["add_doc","2"] -> done
["is_stored"] -> true
["remove_doc","8"] -> done
["len"] -> 2
["remove_doc","1"] -> done
["len"] -> 1
["has_doc","1"] -> false
["get_doc","1"] -> null
["has_doc","2"] -> true
["get_doc","2"] -> {"title":"sun"}

DocumentStore: documents come and go, without texts
["new",false] -> done
["has_doc","1"] -> false
["give","title","moon and tide"] -> done
["add_doc","1"] -> done
["give","title","sun"] -> done
["add_doc","2"] -> done
["is_stored"] -> false
["remove_doc","8"] -> done
["len"] -> 2
["remove_doc","1"] -> done
["len"] -> 1
["has_doc","1"] -> false
["get_doc","1"] -> null
["has_doc","2"] -> true
["get_doc","2"] -> {}

DocumentStore: a document has all its texts
["give","title","moon and tide"] -> done
["add_doc","1"] -> done
["give","title","owls"] -> done
["give","body","Owls hunt at night"] -> done
["add_doc","3"] -> done
["add_field_length","3","title",1] -> done
["add_field_length","3","body",10] -> done
["get_doc","3"] -> {"body":"Owls hunt at night","title":"owls"}
["get_field_length","3","title"] -> 1
["get_field_length","3","body"] -> 10
["get_doc","4"] -> null

DocumentStore: no texts are kept
["new",false] -> done
["give","title","moon"] -> done
["add_doc","1"] -> done
["give","title","sun"] -> done
["add_doc","2"] -> done
["get_doc","6"] -> null
["get_doc","2"] -> {}
["to_value"] -> {"docInfo":{},"docs":{"1":{},"2":{}},"length":2,"save":false}
["swap"] -> done
["from_value",{"docInfo":{},"docs":{"1":{},"2":{}},"length":2,"save":false}] -> done
["eq"] -> true
["clone"] -> done
["eq"] -> true

DocumentStore: lengths outlive texts
["give","title","moon"] -> done
["add_doc","1"] -> done
["add_field_length","1","t",2] -> done
["remove_doc","1"] -> done
["get_field_length","1","t"] -> 0
["give","title","moon"] -> done
["add_doc","1"] -> done
["get_field_length","1","t"] -> 2

DocumentStore: a length of a reference that is not there
["new",true] -> done
["add_field_length","9","t",5] -> done
["len"] -> 0
["get_field_length","9","t"] -> 0
["give","title","sun"] -> done
["add_doc","9"] -> done
["get_field_length","9","t"] -> 5

DocumentStore: lengths of an unknown document are read
["from_value",{"save":false,"docs":{"1":{}},"docInfo":{"2":{"t":3}},"length":1}] -> done
["len"] -> 1
["get_field_length","2","t"] -> 0
["give","title","sun"] -> done
["add_doc","2"] -> done
["get_field_length","2","t"] -> 3

DocumentStore: a store is written
["new",true] -> done
["write"] -> "{\"docInfo\":{},\"docs\":{},\"length\":0,\"save\":true}"
["give","title","moon over the harbour and the hills behind it"] -> done
["give","body","a quiet night"] -> done
["add_doc","1"] -> done
["add_field_length","1","title",9] -> done
["add_field_length","2","body",7] -> done
["write"] -> "{\"docInfo\":{\"1\":{\"title\":9},\"2\":{\"body\":7}},\"docs\":{\"1\":{\"body\":\"a quiet night\",\"title\":\"moon over the harbour and the hills behind it\"}},\"length\":1,\"save\":true}"
["new",false] -> done
["write"] -> "{\"docInfo\":{},\"docs\":{},\"length\":0,\"save\":false}"

DocumentStore: foreign values are refused
["from_value",{"docInfo":{},"docs":{"1":{"a":"b"}},"length":1,"save":false}] -> refused: foreign value
["from_value",{"docInfo":{},"docs":{},"length":1,"save":true}] -> refused: foreign value
["from_value",{"docInfo":{"1":{}},"docs":{},"length":0,"save":true}] -> refused: foreign value
["from_value",{"docInfo":{},"docs":{},"length":0,"save":0}] -> refused: foreign value
["from_value",{"docInfo":{},"docs":[],"length":0,"save":true}] -> refused: foreign value
["from_value",{"docInfo":{},"docs":{},"length":"0","save":true}] -> refused: foreign value
["from_value",{"docInfo":{},"docs":{},"save":true}] -> refused: foreign value
["from_value",{"docInfo":{},"docs":{},"length":0,"save":true,"x":1}] -> refused: foreign value
["from_value",{"docInfo":{},"docs":{},"length":0.0,"save":true}] -> refused: foreign value
["from_value",[]] -> refused: foreign value

DocumentStore: new
["new",false] -> done
["to_value"] -> {"docInfo":{},"docs":{},"length":0,"save":false}

DocumentStore: a value is read and written
["from_value",{"save":true,"docs":{"1":{"body":"far","title":"moon"}},"docInfo":{"1":{"title":1},"2":{"t":3}},"length":1}] -> done
["to_value"] -> {"docInfo":{"1":{"title":1},"2":{"t":3}},"docs":{"1":{"body":"far","title":"moon"}},"length":1,"save":true}
["from_value",{"save":false,"docs":{"1":{"title":"moon"}},"docInfo":{"1":{"title":1}},"length":1}] -> refused: foreign value

DocumentStore: look-ups
["give","title","moon"] -> done
["add_doc","1"] -> done
["add_field_length","1","title",1] -> done
["add_field_length","9","title",9] -> done
["get_doc","1"] -> {"title":"moon"}
["get_doc","9"] -> null
["len"] -> 1
["length"] -> 1
["docs"] -> 1
["doc_info"] -> 2
["get_field_length","1","title"] -> 1
["get_field_length","9","title"] -> 0
["is_empty"] -> false
["is_stored"] -> true
["has_doc","9"] -> false
["to_value"] -> {"docInfo":{"1":{"title":1},"9":{"title":9}},"docs":{"1":{"title":"moon"}},"length":1,"save":true}
["swap"] -> done
["give","title","moon"] -> done
["add_doc","1"] -> done
["add_field_length","1","title",1] -> done
["add_field_length","9","title",9] -> done
["eq"] -> true
["clone"] -> done
["to_value"] -> {"docInfo":{"1":{"title":1},"9":{"title":9}},"docs":{"1":{"title":"moon"}},"length":1,"save":true}
["eq"] -> true

DocumentStore: a new document
["give","title","moon"] -> done
["add_doc","1"] -> done
["add_field_length","1","title",1] -> done
["add_field_length","9","title",9] -> done
["to_value"] -> {"docInfo":{"1":{"title":1},"9":{"title":9}},"docs":{"1":{"title":"moon"}},"length":1,"save":true}
["give","title","sun"] -> done
["add_doc","2"] -> done
["to_value"] -> {"docInfo":{"1":{"title":1},"9":{"title":9}},"docs":{"1":{"title":"moon"},"2":{"title":"sun"}},"length":2,"save":true}

DocumentStore: a document that is there
["give","title","moon"] -> done
["add_doc","1"] -> done
["add_field_length","1","title",1] -> done
["add_field_length","9","title",9] -> done
["to_value"] -> {"docInfo":{"1":{"title":1},"9":{"title":9}},"docs":{"1":{"title":"moon"}},"length":1,"save":true}
["give","title","sun"] -> done
["add_doc","1"] -> done
["to_value"] -> {"docInfo":{"1":{"title":1},"9":{"title":9}},"docs":{"1":{"title":"sun"}},"length":1,"save":true}

DocumentStore: a length
["give","title","moon"] -> done
["add_doc","1"] -> done
["add_field_length","1","title",1] -> done
["add_field_length","9","title",9] -> done
["to_value"] -> {"docInfo":{"1":{"title":1},"9":{"title":9}},"docs":{"1":{"title":"moon"}},"length":1,"save":true}
["add_field_length","1","body",2] -> done
["to_value"] -> {"docInfo":{"1":{"body":2,"title":1},"9":{"title":9}},"docs":{"1":{"title":"moon"}},"length":1,"save":true}

DocumentStore: a length of an unknown reference
["give","title","moon"] -> done
["add_doc","1"] -> done
["add_field_length","1","title",1] -> done
["add_field_length","9","title",9] -> done
["to_value"] -> {"docInfo":{"1":{"title":1},"9":{"title":9}},"docs":{"1":{"title":"moon"}},"length":1,"save":true}
["add_field_length","8","title",2] -> done
["to_value"] -> {"docInfo":{"1":{"title":1},"8":{"title":2},"9":{"title":9}},"docs":{"1":{"title":"moon"}},"length":1,"save":true}

DocumentStore: a document is removed
["give","title","moon"] -> done
["add_doc","1"] -> done
["add_field_length","1","title",1] -> done
["add_field_length","9","title",9] -> done
["to_value"] -> {"docInfo":{"1":{"title":1},"9":{"title":9}},"docs":{"1":{"title":"moon"}},"length":1,"save":true}
["remove_doc","1"] -> done
["to_value"] -> {"docInfo":{"1":{"title":1},"9":{"title":9}},"docs":{},"length":0,"save":true}

DocumentStore: a document is forgotten
["give","title","moon"] -> done
["add_doc","1"] -> done
["add_field_length","1","title",1] -> done
["add_field_length","9","title",9] -> done
["to_value"] -> {"docInfo":{"1":{"title":1},"9":{"title":9}},"docs":{"1":{"title":"moon"}},"length":1,"save":true}
["forget_doc","1"] -> done
["to_value"] -> {"docInfo":{"9":{"title":9}},"docs":{},"length":0,"save":true}

DocumentStore: a new document without texts
["new",false] -> done
["give","title","moon"] -> done
["add_doc","1"] -> done
["add_field_length","1","title",1] -> done
["add_field_length","9","title",9] -> done
["to_value"] -> {"docInfo":{"1":{"title":1},"9":{"title":9}},"docs":{"1":{}},"length":1,"save":false}
["give","title","sun"] -> done
["add_doc","2"] -> done
["to_value"] -> {"docInfo":{"1":{"title":1},"9":{"title":9}},"docs":{"1":{},"2":{}},"length":2,"save":false}

SearchOptions: boosts
["to_value"] -> {"bool":"OR","expand":false,"fields":{}}
["from_value",{"bool":"OR","expand":false,"fields":{"body":{"boost":1},"title":{"boost":5}}}] -> done
["to_value"] -> {"bool":"OR","expand":false,"fields":{"body":{"boost":1},"title":{"boost":5}}}
["eq"] -> false
["swap"] -> done
["from_value",{"bool":"OR","expand":false,"fields":{"body":{"boost":1},"title":{"boost":5}}}] -> done
["eq"] -> true
["clone"] -> done
["eq"] -> true
["to_value"] -> {"bool":"OR","expand":false,"fields":{"body":{"boost":1},"title":{"boost":5}}}
["new"] -> done
["eq"] -> false
["to_value"] -> {"bool":"OR","expand":false,"fields":{}}

SearchOptions: read and written again
["from_value",{"bool":"OR","expand":false,"fields":{"t":{"boost":null,"x":[1.5]}},"zz":{}}] -> done
["to_value"] -> {"bool":"OR","expand":false,"fields":{"t":{}}}

SearchOptions: read and written again
["from_value",{"bool":"AND","expand":true,"fields":{"t":{"boost":255,"bool":"OR","expand":true}}}] -> done
["to_value"] -> {"bool":"AND","expand":true,"fields":{"t":{"bool":"OR","boost":255,"expand":true}}}

SearchOptions: read and written again
["from_value",{"bool":"AND","expand":false,"fields":{"body":{"bool":"OR"},"breadcrumbs":{"boost":200,"bool":"OR"},"title":{"expand":true}}}] -> done
["to_value"] -> {"bool":"AND","expand":false,"fields":{"body":{"bool":"OR"},"breadcrumbs":{"bool":"OR","boost":200},"title":{"expand":true}}}

SearchOptions: foreign values are refused
["from_value",{"bool":"OR","fields":{}}] -> refused: foreign value
["from_value",{"bool":"or","expand":false,"fields":{}}] -> refused: foreign value
["from_value",{"bool":null,"expand":false,"fields":{}}] -> refused: foreign value
["from_value",{"bool":{"OR":null},"expand":false,"fields":{}}] -> refused: foreign value
["from_value",{"bool":"OR","expand":null,"fields":{}}] -> refused: foreign value
["from_value",{"bool":"OR","expand":false,"fields":[]}] -> refused: foreign value
["from_value",{"bool":"OR","expand":false,"fields":{"t":null}}] -> refused: foreign value
["from_value",{"bool":"OR","expand":false,"fields":{"t":{"boost":-1}}}] -> refused: foreign value
["from_value",{"bool":"OR","expand":false,"fields":{"t":{"boost":"5"}}}] -> refused: foreign value
["from_value",{"bool":"OR","expand":false,"fields":{"t":{"boost":5.0}}}] -> refused: foreign value
["from_value",{"bool":"OR","expand":false,"fields":{"t":{"boost":256}}}] -> refused: foreign value
["from_value",{"bool":"OR","expand":false,"fields":{"body":{"boost":1},"title":{"boost":256}}}] -> refused: foreign value
["from_value",[]] -> refused: foreign value

functions: the words of texts
["tokenize_whitespace","take the New York-San Francisco flight"] -> ["take","the","new","york","san","francisco","flight"]
["tokenize_whitespace","this is a simple string"] -> ["this","is","a","simple","string"]
["tokenize_whitespace","  foo    bar  "] -> ["foo","bar"]
["tokenize_whitespace","Solve for A - B"] -> ["solve","for","a","b"]
["tokenize_whitespace"," 한글 사랑 "] -> ["한글","사랑"]
["tokenize_whitespace",""] -> []
["tokenize_whitespace","İZMİR-ÇAĞ"] -> ["i̇zmi̇r","çağ"]
["tokenize_whitespace","a b\u2028c　d-‐e"] -> ["a","b","c","d","‐e"]
["tokenize_whitespace","ŸÁ×ÞŽẞΑ"] -> ["ÿá×þžẞΑ"]
["tokenize_whitespace","İZMİR-ÇAĞ  take the New York-San Francisco flight - "] -> ["i̇zmi̇r","çağ","take","the","new","york","san","francisco","flight"]

functions: lower case
["lower_char","A"] -> "a"
["lower_char","Z"] -> "z"
["lower_char","À"] -> "à"
["lower_char","Þ"] -> "þ"
["lower_char","Ā"] -> "ā"
["lower_char","Į"] -> "į"
["lower_char","Ĳ"] -> "ĳ"
["lower_char","Ķ"] -> "ķ"
["lower_char","Ĺ"] -> "ĺ"
["lower_char","Ň"] -> "ň"
["lower_char","Ŋ"] -> "ŋ"
["lower_char","Ŷ"] -> "ŷ"
["lower_char","Ÿ"] -> "ÿ"
["lower_char","Ź"] -> "ź"
["lower_char","Ž"] -> "ž"
["lower_char","Ș"] -> "ș"
["lower_char","Ț"] -> "ț"
["lower_char","Ѐ"] -> "ѐ"
["lower_char","Џ"] -> "џ"
["lower_char","А"] -> "а"
["lower_char","Я"] -> "я"
["lower_char","a"] -> "a"
["lower_char","×"] -> "×"
["lower_char","ĸ"] -> "ĸ"
["lower_char","ŉ"] -> "ŉ"
["lower_char","ſ"] -> "ſ"
["lower_char","Α"] -> "Α"
["lower_char","Ա"] -> "Ա"
["lower_char","İ"] -> "i̇"

functions: languages in order
["languages",0] -> "English"
["languages",1] -> "Arabic"
["languages",2] -> "Danish"
["languages",3] -> "Dutch"
["languages",4] -> "Finnish"
["languages",5] -> "French"
["languages",6] -> "German"
["languages",7] -> "Italian"
["languages",8] -> "Korean"
["languages",9] -> "Norwegian"
["languages",10] -> "Portuguese"
["languages",11] -> "Romanian"
["languages",12] -> "Russian"
["languages",13] -> "Spanish"
["languages",14] -> "Swedish"
["languages",15] -> "Turkish"
["languages",16] -> null

functions: languages by code and by name
["from_code","DU"] -> "Dutch"
["from_code","nl"] -> null
["from_code","hu"] -> null
["from_name","German"] -> "German"
["from_name","german"] -> null
["from_name",""] -> null

functions: the five tests
["m_is_1","ytat"] -> true
["m_above_1","ytat"] -> true
["has_vowel","y"] -> true
["m_above_0","yt"] -> true
["is_short","yop"] -> true
["is_short","box"] -> false
["m_above_0","tr"] -> false

functions: roots
["root",1] -> 1000000
["root",2] -> 1414213
["root",3] -> 1732050
["root",4] -> 2000000
"##;
