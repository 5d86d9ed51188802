//! The parts of the script around what it knows.

/// What stands before.
pub const HEAD: &str =
    "/* What a page needs so that elasticlunr.js 0.9.5 reads a query as the index was built.
   Load it after elasticlunr.min.js, by its own script element; in node:

     const elasticlunr = require('./elasticlunr.min.js');
     require('./elasticlunr-languages.js')(elasticlunr);

   Printed by the program elasticlunr_script; change nothing here. */
(function (extend) {
  'use strict';
  if (typeof module === 'object' && module.exports) module.exports = extend;
  else if (typeof elasticlunr === 'undefined') throw new Error('elasticlunr.min.js has to be loaded first');
  else extend(elasticlunr);
})(function (elasticlunr) {
  'use strict';
  var FACTS = ";

/// What makes stages of what the script knows.
pub const STAGES: &str = ";

  // A class is a list of marks: it begins at the first, ends before the second, begins again at
  // the third.
  function has(marks, character) {
    var code = character.codePointAt(0), low = 0, high = marks.length;
    while (low < high) {
      var middle = (low + high) >> 1;
      if (marks[middle] <= code) low = middle + 1;
      else high = middle;
    }
    return low % 2 === 1;
  }

  // Each character that changes, with what replaces it.
  function table(pairs) {
    return new Map(pairs.map(function (pair) {
      var characters = Array.from(pair);
      return [characters[0], characters.slice(1).join('')];
    }));
  }

  // The words of a text, in lower case.
  var LOWER = table(FACTS.lower);
  function words(text) {
    var found = [], word = '';
    for (var character of String(text)) {
      if (!has(FACTS.between, character)) word += LOWER.get(character) || character;
      else if (word !== '') {
        found.push(word);
        word = '';
      }
    }
    if (word !== '') found.push(word);
    return found;
  }

  var before = elasticlunr.tokenizer;
  elasticlunr.tokenizer = function (text) {
    var texts = Array.isArray(text) ? text : [text];
    return [].concat.apply([], texts.map(function (one) {
      return one === null || one === undefined ? [] : words(one);
    }));
  };
  Object.keys(before).forEach(function (key) { elasticlunr.tokenizer[key] = before[key]; });

  // Cuts off both ends what is not of the class; a token of which nothing is left goes.
  function trimmer(marks) {
    return function (token) {
      var characters = Array.from(token), first = 0, end = characters.length;
      while (first < end && !has(marks, characters[first])) first++;
      while (first < end && !has(marks, characters[end - 1])) end--;
      return first < end ? characters.slice(first, end).join('') : undefined;
    };
  }

  function stopWords(list) {
    var listed = new Set(list);
    return function (token) { return listed.has(token) ? undefined : token; };
  }

  // Takes the first character of one class away, and changes the first one of a table.
  function stemmer(marks, pairs) {
    var changes = table(pairs);
    return function (token) {
      var characters = Array.from(token);
      var at = characters.findIndex(function (character) { return has(marks, character); });
      if (at >= 0) characters.splice(at, 1);
      at = characters.findIndex(function (character) { return changes.has(character); });
      if (at >= 0) characters[at] = changes.get(characters[at]);
      return characters.join('') || undefined;
    };
  }

";

/// What makes a stage of the table of a stemmer.
pub const STEMMER: &str = "  // The numbers of the characters of a text.
  function codes(text) {
    var found = [];
    for (var at = 0; at < text.length; at++) {
      found.push(text.codePointAt(at));
      if (found[found.length - 1] > 0xFFFF) at++;
    }
    return found;
  }

  // A class of a table: its characters, or behind a circumflex all others.
  function group(word) {
    var others = word[0] === '^', marked = [];
    codes(others ? word.slice(1) : word).forEach(function (code) {
      while (marked.length <= code) marked.push(others);
      marked[code] = !others;
    });
    return function (code) { return code < marked.length ? marked[code] : others; };
  }

  // The suffixes of a step as a tree, from their last characters.
  function suffixes(words) {
    var tree = { next: new Map(), step: -1 };
    for (var at = 1; at < words.length; at += 2) {
      var node = tree;
      codes(words[at + 1]).reverse().forEach(function (code) {
        if (!node.next.has(code)) node.next.set(code, { next: new Map(), step: -1 });
        node = node.next.get(code);
      });
      if (node.step < 0) node.step = Number(words[at]);
    }
    return tree;
  }

  // The stemmer of a table. Its first line has the numbers of the step before and of the main step,
  // and the marks; each other line is a step. A step takes the length of a text, whose characters
  // `text` begins with, and gives the length of what it makes of it, or -1 where it doesn't apply;
  // then it has changed nothing, because only a safe table is read. Steps are nested 400 deep at
  // most: what lies deeper changes nothing.
  var FIRST = /^[0-9]{1,4} [0-9]{1,4}( [0-9]{1,4} [0-9]{1,4})*$/;
  var STEP = new RegExp('^([+.:*]F W|[@!]F N|[&|=]F N N|-F N( N W)*|~F W N)$'
    .replace(/F/g, '[s-][a-]').replace(/W/g, '[^ ]*').replace(/N/g, '[0-9]{1,4}'));
  function tableStemmer(lines, name) {
    var numbers = lines[0].split(' ').map(Number), rows = lines.slice(1), text, regions, steps;
    if (!FIRST.test(lines[0]) || !rows.every(isSafe)) {
      throw new Error('the table of ' + name + ' is damaged');
    }

    // What a step declares: that it only shortens a text, and that it always applies.
    function shortens(number) { return !rows[number] || rows[number][1] === 's'; }
    function applies(number) { return !rows[number] || rows[number][2] === 'a'; }

    // Whether the line is a step that is what it declares, and tries only what changes nothing.
    function isSafe(line) {
      var sign = line[0], words = line.slice(4).split(' '), a = Number(words[0]), b = Number(words[1]);
      var isShort = sign === '+' ? words[0] === ''
        : sign === '-' ? words.every(function (word, at) { return at % 2 === 0 || shortens(Number(word)); })
        : sign === '&' || sign === '|' ? shortens(a) && shortens(b)
        : sign !== '=' && sign !== '~';
      var isSure = sign === '&' || sign === '=' ? applies(a) && applies(b)
        : sign === '|' ? applies(a) || applies(b)
        : sign === '+' || sign === '*' || sign === '~';
      var isFirm = sign === '&' ? shortens(a) || applies(b) : sign === '!' || sign === '=' ? shortens(a) : true;
      return STEP.test(line) && (isShort || line[1] === '-') && (isSure || line[2] === '-') && isFirm;
    }

    function apply(number, length, depth) {
      return depth && steps[number] ? steps[number](length, depth - 1) : length;
    }

    function stepOf(line) {
      var words = line.slice(4).split(' '), a = Number(words[0]), b = Number(words[1]);
      var end = codes(words[0]), isIn = group(words[0]), tree = line[0] === '-' && suffixes(words);
      return {
        '+': function (length) {
          for (var at = 0; at < end.length; at++) text[length++] = end[at];
          return length;
        },
        '@': function (length) { return length < (regions[a] || 0) ? -1 : length; },
        '.': function (length) { return length && isIn(text[length - 1]) ? length - 1 : -1; },
        ':': function (length) {
          var last = text[length - 1];
          return length > 1 && last === text[length - 2] && isIn(last) ? length - 1 : -1;
        },
        '*': function (length) {
          while (length && isIn(text[length - 1])) length--;
          return length;
        },
        '-': function (length, depth) {
          var start = regions[a] || 0, node = length < start ? undefined : tree, found = -1, rest = 0;
          while (node) {
            if (node.step >= 0) {
              found = node.step;
              rest = length;
            }
            node = length > start ? node.next.get(text[--length]) : undefined;
          }
          return found < 0 ? -1 : apply(found, rest, depth);
        },
        '&': function (length, depth) {
          var left = apply(a, length, depth);
          return left < 0 ? -1 : apply(b, left, depth);
        },
        '|': function (length, depth) {
          var left = apply(a, length, depth);
          return left < 0 ? apply(b, length, depth) : left;
        },
        '!': function (length, depth) { return apply(a, length, depth) < 0 ? length : -1; },
        '=': function (length, depth) {
          var front = apply(a, length, depth);
          if (front < 0) return -1;
          var rest = text.slice(front, length), left = apply(b, front, depth);
          for (var at = 0; left >= 0 && at < rest.length; at++) text[left++] = rest[at];
          return left;
        },
        '~': function (length, depth) {
          var typed = length, before, left;
          while (typed && !isIn(text[typed - 1])) typed--;
          if (!typed) return length;
          before = text.slice(0, length);
          typed = 0;
          for (var at = 0; at < length; at++) {
            text[typed++] = before[at];
            left = apply(b, typed, depth);
            if (left >= 0) typed = left;
          }
          return typed;
        }
      }[line[0]];
    }

    // What the step makes of a word, and nothing where it doesn't apply.
    function run(number, word) {
      text = word.slice();
      var left = apply(number, word.length, 400);
      return left < 0 ? undefined : text.slice(0, left);
    }

    return function (token) {
      var word = codes(token), starts = [0], stem = '';
      steps = steps || lines.slice(1).map(stepOf);
      regions = [];
      word = run(numbers[0], word) || word;
      for (var at = 2; at < numbers.length; at += 2) {
        var rest = run(numbers[at], word.slice().reverse()) || [];
        starts.push(Math.max(numbers[at + 1], word.length - rest.length));
      }
      regions = starts;
      word = run(numbers[1], word) || word;
      for (at = 0; at < word.length; at++) stem += String.fromCodePoint(word[at]);
      return stem || undefined;
    };
  }

";

/// What stands at the end.
pub const TAIL: &str = "  FACTS.stages.forEach(function (stage) {
    var run = stage['class'] ? trimmer(stage['class'])
      : stage.words ? stopWords(stage.words)
      : stage.drops ? stemmer(stage.drops, stage.changes)
      : stage.table ? tableStemmer(stage.table.split('\\n'), stage.name)
      : function (token) { return token; };
    delete elasticlunr.Pipeline.registeredFunctions[stage.name];
    elasticlunr.Pipeline.registerFunction(run, stage.name);
  });

  // A printed trie has one step for each character; one that elasticlunr.js made has two above
  // U+FFFF.
  elasticlunr.InvertedIndex.prototype.getNode = function (token) {
    if (!token) return null;
    var node = this.root;
    for (var character of token) {
      if (node[character]) node = node[character];
      else if (character.length === 2 && node[character[0]]) node = node[character[0]][character[1]];
      else node = undefined;
      if (!node) return null;
    }
    return node;
  };
  elasticlunr.InvertedIndex.prototype.hasToken = function (token) { return this.getNode(token) !== null; };

  return elasticlunr;
});
";
